//! The tests: each asserts what a check of `checks` says.

use crate::checks::{
    fault_is, field_is_named, fixed_document_is_read, long_document_is_read, no_flags_are_none,
    no_flags_are_none_in_the_value, number_document_is_read, offset_fits, plan_appends, plan_is,
    plan_is_bad, plan_rebuilds, short_document_is_read, view_document_is_read,
};
use column_document::{DocFault, Field};
use column_relayout::{Kind, Step};
use std::test::Fail;

const FAULTS: [(&[u8], DocFault); 33] = [
    (b"{", DocFault::Json),
    (b"", DocFault::Json),
    (b"\xff", DocFault::Json),
    (b"{\"kind\":\"binary32\xc3\"}", DocFault::Json),
    (b"{}", DocFault::BadField(Field::Kind)),
    (b"[]", DocFault::BadField(Field::Kind)),
    (br#"{"kind":"binary33"}"#, DocFault::BadField(Field::Kind)),
    (br#"{"kind":"Utf8_32"}"#, DocFault::BadField(Field::Kind)),
    (br#"{"kind":"binview"}"#, DocFault::BadField(Field::Views)),
    (
        br#"{"kind":"utf8view","views":"","buffers":[]}"#,
        DocFault::BadField(Field::Views),
    ),
    (
        br#"{"kind":"binview","views":["000000000000000000000000000000000"],"buffers":1}"#,
        DocFault::BadField(Field::Views),
    ),
    (
        br#"{"kind":"binview","views":["0000000000000000000000000000000g"],"buffers":[]}"#,
        DocFault::BadField(Field::Views),
    ),
    (
        br#"{"kind":"binview","views":[null],"buffers":[]}"#,
        DocFault::BadField(Field::Views),
    ),
    (
        br#"{"kind":"utf8view","views":["00000000000000000000000000000000"]}"#,
        DocFault::BadField(Field::Buffers),
    ),
    (
        br#"{"kind":"utf8view","views":[],"buffers":["00","0"],"validity":1}"#,
        DocFault::BadField(Field::Buffers),
    ),
    (
        br#"{"kind":"utf8view","views":[],"buffers":[],"validity":1}"#,
        DocFault::BadField(Field::Validity),
    ),
    (
        br#"{"kind":"fixed","kind":"utf8_64"}"#,
        DocFault::BadField(Field::Offsets),
    ),
    (br#"{"kind":"fixed"}"#, DocFault::BadField(Field::Values)),
    (
        br#"{"kind":"fixed","values":"00","validity":1}"#,
        DocFault::BadField(Field::Width),
    ),
    (
        br#"{"kind":"fixed","values":"00","width":18446744073709551616}"#,
        DocFault::BadField(Field::Width),
    ),
    (
        br#"{"kind":"fixed","values":"00","width":-1}"#,
        DocFault::BadField(Field::Width),
    ),
    (
        br#"{"kind":"int64","offsets":[0],"values":"","validity":1}"#,
        DocFault::BadField(Field::Numbers),
    ),
    (
        br#"{"kind":"int64","numbers":[0,9223372036854775808]}"#,
        DocFault::BadField(Field::Numbers),
    ),
    (
        br#"{"plan":[["widen"],"gc",{"gc":1},["left",1]]}"#,
        DocFault::BadField(Field::Kind),
    ),
    (
        br#"{"kind":"binary64","offsets":[0,1.5],"values":1}"#,
        DocFault::BadField(Field::Offsets),
    ),
    (
        br#"{"kind":"utf8_64","offsets":["0"],"values":""}"#,
        DocFault::BadField(Field::Offsets),
    ),
    (
        br#"{"kind":"utf8_32","offsets":[0],"values":"abc"}"#,
        DocFault::BadField(Field::Values),
    ),
    (
        br#"{"kind":"utf8_64","offsets":[0],"values":"","validity":1,"plan":null}"#,
        DocFault::BadField(Field::Validity),
    ),
    (
        br#"{"kind":"binary64","offsets":[0],"values":"","plan":null}"#,
        DocFault::BadField(Field::Plan),
    ),
    (
        br#"{"plan":[["rebuild","int64"]]}"#,
        DocFault::BadField(Field::Kind),
    ),
    (
        br#"{"kind":"fixed","plan":[["rebuild"]]}"#,
        DocFault::BadField(Field::Values),
    ),
    (
        br#"{"kind":"binary64","offsets":[9223372036854775808],"plan":[["gc"],["rebuild","int64"]]}"#,
        DocFault::BadField(Field::Offsets),
    ),
    (
        br#"{"kind":"utf8_64","offsets":[0],"values":"","plan":[["left"],["to_utf8",1],["rebuild"]]}"#,
        DocFault::BadField(Field::Plan),
    ),
];

#[test]
fn the_first_fault_is_told(rt: HostRuntime) {
    for (document, fault) in FAULTS {
        assert!(rt; fault_is(rt.alloc(), document, fault), "{document:?}");
    }
}

const OFFSETS: [(&str, bool, bool); 12] = [
    ("-2147483649", true, false),
    ("-2147483648", true, true),
    ("2147483647", true, true),
    ("2147483648", true, false),
    ("-9223372036854775809", false, false),
    ("-9223372036854775808", true, false),
    ("9223372036854775807", true, false),
    ("9223372036854775808", false, false),
    ("18446744073709551615", false, false),
    ("1.0", false, false),
    ("-0", false, false),
    ("true", false, false),
];

#[test]
fn offsets_are_within_their_type(rt: HostRuntime) -> Result<(), Fail> {
    for (offset, long, short) in OFFSETS {
        assert!(rt; offset_fits(rt.alloc(), offset, long, short)?, "{offset}");
    }
    Ok(())
}

#[test]
fn a_step_has_its_arguments(rt: HostRuntime) -> Result<(), Fail> {
    let table: [(&str, &[Step]); 10] = [
        (r#"[["slice",1,2]]"#, &[Step::Slice(1, 2)]),
        (
            r#"[["slice",18446744073709551615,0]]"#,
            &[Step::Slice(usize::MAX, 0)],
        ),
        (r#"[["left",3]]"#, &[Step::Left(3)]),
        (
            r#"[["left",18446744073709551615]]"#,
            &[Step::Left(usize::MAX)],
        ),
        (r#"[["right",0]]"#, &[Step::Right(0)]),
        (r#"[["to_utf8"]]"#, &[Step::ToUtf8]),
        (r#"[["to_binary"]]"#, &[Step::ToBinary]),
        (
            r#"[["to_binary"],["left",2],["to_utf8"]]"#,
            &[Step::ToBinary, Step::Left(2), Step::ToUtf8],
        ),
        (r#"[["gc"],["dedupe"]]"#, &[Step::Gc, Step::Dedupe]),
        ("[]", &[]),
    ];
    for (plan, wanted) in table {
        assert!(rt; plan_is(rt.alloc(), plan, wanted)?, "{plan}");
    }
    Ok(())
}

const ROWS: [(&str, &[Option<&[u8]>]); 4] = [
    (r#"[["append",[]]]"#, &[]),
    (r#"[["append",[null]]]"#, &[None]),
    (
        r#"[["append",["ee","",null]]]"#,
        &[Some(b"\xee"), Some(b""), None],
    ),
    (
        r#"[["append",["0aAbCD","61fF"]]]"#,
        &[Some(b"\x0a\xab\xcd"), Some(b"\x61\xff")],
    ),
];

#[test]
fn a_row_is_null_or_has_its_bytes(rt: HostRuntime) -> Result<(), Fail> {
    for (plan, wanted) in ROWS {
        assert!(rt; plan_appends(rt.alloc(), plan, wanted)?, "{plan}");
    }
    Ok(())
}

const REBUILDS: [(&str, Kind); 9] = [
    (r#"[["rebuild","binary32"]]"#, Kind::Binary32),
    (r#"[["rebuild","binary64"]]"#, Kind::Binary64),
    (r#"[["rebuild","utf8_32"]]"#, Kind::Utf8_32),
    (r#"[["rebuild","utf8_64"]]"#, Kind::Utf8_64),
    (r#"[["rebuild","binview"]]"#, Kind::BinView),
    (r#"[["rebuild","utf8view"]]"#, Kind::Utf8View),
    (r#"[["rebuild","fixed",0]]"#, Kind::Fixed(0)),
    (
        r#"[["rebuild","fixed",18446744073709551615]]"#,
        Kind::Fixed(usize::MAX),
    ),
    (r#"[["rebuild","int64"]]"#, Kind::Int64),
];

#[test]
fn a_rebuild_names_its_kind(rt: HostRuntime) -> Result<(), Fail> {
    for (plan, kind) in REBUILDS {
        assert!(rt; plan_rebuilds(rt.alloc(), plan, kind)?, "{plan}");
    }
    Ok(())
}

const BAD_STEPS: [&str; 51] = [
    "[]",
    "[1]",
    r#""left""#,
    r#"["turn"]"#,
    r#"["Left",1]"#,
    r#"["slice",0]"#,
    r#"["slice",0,1,2]"#,
    r#"["slice",-1,0]"#,
    r#"["slice",0,1.5]"#,
    r#"["slice",0,18446744073709551616]"#,
    r#"["slice","0",1]"#,
    r#"["slice",0,-0]"#,
    r#"["left"]"#,
    r#"["left",1,2]"#,
    r#"["left",-1]"#,
    r#"["left",1.5]"#,
    r#"["left",18446744073709551616]"#,
    r#"["left","1"]"#,
    r#"["right"]"#,
    r#"["right",1,2]"#,
    r#"["right",-1]"#,
    r#"["right",1.5]"#,
    r#"["right",18446744073709551616]"#,
    r#"["right","1"]"#,
    r#"["to_utf8",1]"#,
    r#"["to_utf8",null]"#,
    r#"["to_binary",1]"#,
    r#"["to_binary","0"]"#,
    r#"["gc",1]"#,
    r#"["Gc"]"#,
    r#"["dedupe",[]]"#,
    r#"["append"]"#,
    r#"["append",null]"#,
    r#"["append","00"]"#,
    r#"["append",[],[]]"#,
    r#"["append",[7]]"#,
    r#"["append",["00",true]]"#,
    r#"["append",["0"]]"#,
    r#"["append",["0g"]]"#,
    r#"["append",[["00"]]]"#,
    r#"["rebuild"]"#,
    r#"["rebuild",7]"#,
    r#"["rebuild","binary33"]"#,
    r#"["rebuild","Int64"]"#,
    r#"["rebuild","int64",8]"#,
    r#"["rebuild","binary32",null]"#,
    r#"["rebuild","fixed"]"#,
    r#"["rebuild","fixed","8"]"#,
    r#"["rebuild","fixed",-1]"#,
    r#"["rebuild","fixed",18446744073709551616]"#,
    r#"["rebuild","fixed",8,8]"#,
];

#[test]
fn other_elements_make_the_plan_bad(rt: HostRuntime) -> Result<(), Fail> {
    for element in BAD_STEPS {
        assert!(rt; plan_is_bad(rt.alloc(), element)?, "{element}");
    }
    Ok(())
}

#[test]
fn a_document_of_each_kind_gives_its_lists(rt: HostRuntime) -> Result<(), Fail> {
    assert!(rt; short_document_is_read(rt.alloc(), "binary32", false)?);
    assert!(rt; short_document_is_read(rt.alloc(), "utf8_32", true)?);
    assert!(rt; long_document_is_read(rt.alloc(), "binary64", false)?);
    assert!(rt; long_document_is_read(rt.alloc(), "utf8_64", true)?);
    assert!(rt; view_document_is_read(rt.alloc(), "binview", false)?);
    assert!(rt; view_document_is_read(rt.alloc(), "utf8view", true)?);
    assert!(rt; fixed_document_is_read(rt.alloc()) && number_document_is_read(rt.alloc()));
    Ok(())
}

#[test]
fn flags_that_are_not_given_are_none(rt: HostRuntime) {
    let missing: &[u8] = br#"{"kind":"binary32","offsets":[],"values":""}"#;
    let null: &[u8] = br#"{"kind":"utf8_64","offsets":[],"values":"","validity":null,"plan":[]}"#;
    assert!(rt; no_flags_are_none(rt.alloc(), missing));
    assert!(rt; no_flags_are_none(rt.alloc(), null));
    assert!(rt; no_flags_are_none_in_the_value(rt.alloc(), null));
}

const FIELDS: [(Field, &str); 9] = [
    (Field::Kind, "kind"),
    (Field::Offsets, "offsets"),
    (Field::Values, "values"),
    (Field::Width, "width"),
    (Field::Views, "views"),
    (Field::Buffers, "buffers"),
    (Field::Numbers, "numbers"),
    (Field::Validity, "validity"),
    (Field::Plan, "plan"),
];

#[test]
fn fields_have_their_words(rt: HostRuntime) {
    for (field, name) in FIELDS {
        assert!(rt; field_is_named(field, name), "{name}");
    }
}
