//! Texts of file control parameters (ISO/IEC 7816-4, tag 62), as in CREATE FILE. The rows test the answers of SELECT.

use card_model::FcpFault;
use fcp_template::parse;
use std::test::Fail;

// Texts of each kind of file, and texts that CREATE FILE refuses, each with its first fault.
const TEXTS: &[(&str, Option<FcpFault>)] = &[
    ("62178202412183026F018801088002000A8A01058C03030000", None),
    ("62178202412183026F02880118800201008A01058C03030000", None),
    ("62168202412183026F10880080027FFF8A01058C03030000", None),
    ("621882044621000383026F038800800200098A01058C03030000", None),
    ("62118202782183027F108A01058C0407000000", None),
    (
        "621A8205422100020183026F048800800200068A01058C0407000000",
        None,
    ),
    (
        "62198202412183026F068800800200018A01058C063B0000000000",
        None,
    ),
    ("62178202782183027F208A01058C0407000000C60490010080", None),
    // A byte is left over, or one is missing.
    ("620000", SHAPE),
    ("62178202412183026F018801088002000A8A01058C030300", SHAPE),
    ("6200", Some(FcpFault::Missing)),
    // The state occurs twice; so does an object without effect.
    (
        "62198202412183026F0788008002000A8A01058A01058C03030000",
        TWICE,
    ),
    ("62158202782183027F208A01058C040700000081008100", TWICE),
    // The sizes 32,768 and 0; condition 20; the identifiers of the master file and of the current DF.
    ("62168202412183026F108800800280008A01058C03030000", VALUE),
    ("62168202412183026F108800800200008A01058C03030000", VALUE),
    ("62168202412183026F0888008002000A8A01058C03032000", VALUE),
    ("62118202782183023F008A01058C0407000000", VALUE),
    ("62118202782183023FFF8A01058C0407000000", VALUE),
];

const SHAPE: Option<FcpFault> = Some(FcpFault::Shape);

const TWICE: Option<FcpFault> = Some(FcpFault::Twice);

const VALUE: Option<FcpFault> = Some(FcpFault::Value);

#[test]
fn reads_texts(rt: HostRuntime) -> Result<(), Fail> {
    for &(digits, want) in TEXTS {
        let text = hex::decode(rt.alloc(), digits)?;
        assert!(rt; parse(&text).err() == want, "at {digits}");
    }
    Ok(())
}
