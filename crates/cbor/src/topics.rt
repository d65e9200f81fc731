//! What the program prints about itself.

ghost use Rattle.std.specs.Prelude.{◌≡◌};
ghost use Rattle.cbor.specs.Topics.{topic_text};

use crate::command::Topic;

/// The commands, with an example each.
pub const HELP: &str = "\
cbor: CBOR (RFC 8949) from the standard input, as lines of hex or, with --binary, as bytes,
or from files of bytes

  cbor read [--det [--core]] [limit]    each item's shortest definite encoding: 1800 gives ok 00
  cbor canon [--core] [limit]           its deterministic one: bf02000100ff gives ok a201000200
  cbor diag [--indent] [limit]          its diagnostic notation: a1616101 gives {\"a\": 1}
  cbor diag --exact                     with its very heads: 9f1800ff gives [_ 0_0]
  cbor encode [limit]                   the encoding of notation: [1, h'02'] gives 82014102
  cbor seq                              each line's items: 0102 gives ok 01 02
  cbor dump                             its heads, each with what it says, and an empty line
  cbor sort [--core]                    all lines' items in order: 6161 and 00 give 00 and 6161
  cbor diag --binary [--indent] [limit] [file..]
                                        each item of files: cbor diag --binary a.cbor b.cbor
  cbor diag --binary --exact [file..]   with its very heads: cbor diag --binary --exact a.cbor
  cbor read --binary [--det [--core]] [limit] [file..]
                                        the same in hex: cbor read --binary a.cbor
  cbor canon --binary [--core] [limit] [file..]
                                        in deterministic hex: cbor canon --binary a.cbor
  cbor dump --binary [file..]           the heads of a file's item: cbor dump --binary a.cbor
  cbor encode --binary [limit]          the lines' encodings as bytes, one behind the other
  cbor --help, -h, cbor --version       this page, and the version

--det takes deterministic encodings alone, whose keys are length-first or, with --core, bytewise.
A bignum of more than 16 bytes is taken and written as it stands, even with zeros at its front.
Without a file, and for the file -, the standard input is read; ./300 is the file named 300.
At most 256 levels are nested, or as many as the limit says, which is at most 10000.
Status 1: something was refused; 2: wrong words; 3: a file, the input or the output failed
(1 for read, seq, sort of lines).
";

/// The version.
pub const VERSION: &str = "cbor 0.4.0\n";

/// What is printed about a topic.
pub fn topic_text(topic: Topic) -> &'static str
    ensures { result.now ≡ topic_text topic }
{
    match topic {
        Topic::Help => HELP,
        Topic::Version => VERSION,
    }
}
