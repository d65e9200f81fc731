//! The callers of the lowest layer are run.
use ciborium::ll::{Header, NoItem};
use ciborium_examples::framing::split_item;
use ciborium_examples::head_callers::{first_head, write_array};
use std::test::Fail;

#[test]
fn a_local_decoder_leaves_the_rest(rt: HostRuntime) -> Result<(), Fail> {
    let mut reader: &[u8] = &[0x18, 0x20, 0x07];
    assert_eq!(rt; first_head(&mut reader)?, Header::Positive(32));
    assert_eq!(rt; reader.len(), 1);
    Ok(())
}

#[test]
fn a_local_encoder_writes_to_its_writer(rt: HostRuntime) -> Result<(), Fail> {
    let mut out = hex::decode(rt.alloc(), "01")?;
    write_array(&mut out)?;
    assert_eq!(rt; out, hex::decode(rt.alloc(), "019f6161ff")?);
    Ok(())
}

#[test]
fn items_are_framed(rt: HostRuntime) -> Result<(), Fail> {
    let received: &[u8] = &[0xbf, 0x01, 0xf9, 0x3c, 0x00, 0xff, 0x20];
    let Some((item, rest)) = split_item(received).ok().flatten() else {
        return Err(Fail::new("no item"));
    };
    assert_eq!(rt; item.len(), 6);
    assert_eq!(rt; rest.len(), 1);
    assert_eq!(rt; split_item(item).ok().flatten().is_some(), true);
    assert_eq!(rt; split_item(&[0xbf, 0x01]).ok().flatten().is_none(), true);
    assert_eq!(rt;
        split_item(&[0xbf, 0x01, 0xff]).err(),
        Some(NoItem::Malformed(2))
    );
    Ok(())
}
