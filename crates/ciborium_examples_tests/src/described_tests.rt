//! Described types, and one inside another.
use crate::expectations::{expect_same, expect_written};
use ciborium::de::Error;
use ciborium::value::{KeyOrder, Kind};
use ciborium::{from_slice, from_slice_deterministic, to_vec};
use ciborium_examples::described_callers::{described_come_back, header_again};
use ciborium_examples::described_types::{KeyHeader, Record};
use std::alloc::{AllocError, Global};
use std::test::Fail;

fn make_header(alloc: Global) -> Result<KeyHeader, AllocError> {
    let owner = Record {
        id: 7,
        name: String::from_str(alloc, "a")?,
        seq: None,
        tags: Vec::new(alloc),
        on: true,
    };
    Ok(KeyHeader {
        algorithm: -7,
        key_id: None,
        owner: Some(owner),
    })
}

// {1: -7, -1: {"id": 7, "name": "a", "tags": [], "on": true}}
#[test]
fn a_record_comes_back_inside_a_header(rt: HostRuntime) -> Result<(), Fail> {
    let alloc = rt.alloc();
    let digits = "a2012620a462696407646e616d656161647461677380626f6ef5";
    expect_written(alloc, make_header(alloc), digits)?;
    let bytes = to_vec(alloc, &make_header(alloc)?)?;
    let again = from_slice::<KeyHeader>(alloc, &bytes)?;
    expect_same(again, make_header(alloc)?, "from bytes")
}

#[test]
fn a_header_comes_back_by_its_law(rt: HostRuntime) -> Result<(), Fail> {
    let alloc = rt.alloc();
    described_come_back();
    let header = KeyHeader {
        algorithm: -7,
        key_id: None,
        owner: None,
    };
    let again = header_again(alloc, &header)?;
    expect_same(again, header, "the header")
}

// {1: -7, 4: "11"}, by the order of encoded keys
#[test]
fn a_header_is_loaded(rt: HostRuntime) -> Result<(), Fail> {
    let alloc = rt.alloc();
    let saved: &[u8] = &[0xa2, 0x01, 0x26, 0x04, 0x62, 0x31, 0x31];
    let again = from_slice_deterministic::<KeyHeader>(alloc, saved, KeyOrder::LengthFirst, 1)?;
    let header = KeyHeader {
        algorithm: -7,
        key_id: Some(String::from_str(alloc, "11")?),
        owner: None,
    };
    expect_same(again, header, "the header")
}

// The algorithm -7 under label 1, in each spelling of the label.
#[test]
fn labels_are_numbers_in_any_width(rt: HostRuntime) -> Result<(), Fail> {
    let alloc = rt.alloc();
    for digits in [
        "a10126",
        "a1180126",
        "a119000126",
        "a1c2410126",
        "bf0126ff",
        "a2012604f6",
    ] {
        let bytes = hex::decode(alloc, digits)?;
        let header = KeyHeader {
            algorithm: -7,
            key_id: None,
            owner: None,
        };
        expect_same(from_slice::<KeyHeader>(alloc, &bytes)?, header, digits)?;
    }
    Ok(())
}

// Behind {1: -7, the labels 257, "1", h'31', -2, 0 and [], which are none of the header's, and 4 or
// 1 once more.
const REFUSED: [(&str, usize, Kind); 8] = [
    ("a2012619010100", 3, Kind::UnknownField),
    ("a20126613100", 3, Kind::UnknownField),
    ("a20126413100", 3, Kind::UnknownField),
    ("a201262100", 3, Kind::UnknownField),
    ("a201260000", 3, Kind::UnknownField),
    ("a201268000", 3, Kind::UnknownField),
    ("a30126046131046132", 6, Kind::DuplicateKey),
    ("a20126180126", 3, Kind::DuplicateKey),
];

#[test]
fn other_labels_are_refused_where_they_stand(rt: HostRuntime) -> Result<(), Fail> {
    let alloc = rt.alloc();
    for (digits, offset, kind) in REFUSED {
        let bytes = hex::decode(alloc, digits)?;
        match from_slice::<KeyHeader>(alloc, &bytes) {
            Err(Error::Semantic(Some(at), found)) => {
                expect_same((at, found), (offset, kind), digits)?;
            }
            _ => return Err(Fail::new(digits)),
        }
    }
    Ok(())
}

// A record by its names in another order, with keys of other kinds between them: 5, [] and "x".
#[test]
fn keys_that_are_no_labels_are_passed_over(rt: HostRuntime) -> Result<(), Fail> {
    let alloc = rt.alloc();
    let digits = "a7626f6ef4050080016178f66269641903e8646e616d65606474616773816161";
    let bytes = hex::decode(alloc, digits)?;
    let record = from_slice::<Record>(alloc, &bytes);
    expect_written(
        alloc,
        record,
        "a46269641903e8646e616d65606474616773816161626f6ef4",
    )
}
