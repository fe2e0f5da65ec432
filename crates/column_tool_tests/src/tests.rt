//! The tests: each asserts what a check of `checks` says.

use crate::checks::{
    FIRST, FIRST_TEXT, answers, blanks_answer, column_text_is, ends_full, fails_at_read,
    fails_at_write, is_nested, refusal_text_is, words_read_nothing,
};
use std::test::Fail;

// documents, each with what is printed for it
type Rows<'a, const N: usize> = [(&'a [u8], &'a [u8]); N];

#[test]
fn texts_are_made(rt: HostRuntime) -> Result<(), Fail> {
    assert!(rt; column_text_is(rt.alloc())?);
    assert!(rt; refusal_text_is(rt.alloc())?);
    Ok(())
}

const COLUMNS: Rows<'_, 17> = [
    (FIRST, FIRST_TEXT),
    (
        br#"{"kind":"binary32","offsets":[0,2,2,3],"values":"010203","validity":[true,false,true],"plan":[["slice",1,2]]}"#,
        b"ok binary32 2\n-\n+03\noffsets=2,2,3\nvalues=010203\n",
    ),
    (
        br#"{"plan":[["slice",0,2],["slice",2,0]],"validity":null,"values":"00ABcd","offsets":[1,2,3,3],"kind":"binary32"}"#,
        b"ok binary32 0\noffsets=3\nvalues=00abcd\n",
    ),
    (
        br#"{"kind":"binary32","offsets":[2],"values":"0102","ignored":[1.5,{}]}"#,
        b"ok binary32 0\noffsets=2\nvalues=0102\n",
    ),
    (
        br#"{"kind":"binary32","offsets":[0,0,1],"values":"7f"}"#,
        b"ok binary32 2\n+\n+7f\noffsets=0,0,1\nvalues=7f\n",
    ),
    (
        br#"{"kind":"utf8_32","offsets":[0,2,2,7],"values":"68697468657265","validity":[true,false,true],"plan":[["slice",1,2]]}"#,
        b"ok utf8_32 2\n-\n+7468657265\noffsets=2,2,7\nvalues=68697468657265\n",
    ),
    (
        br#"{"kind":"utf8_32","offsets":[0,2,2,7],"values":"68697468657265","validity":[true,false,true],"plan":[["to_binary"],["to_utf8"]]}"#,
        b"ok utf8_32 3\n+6869\n-\n+7468657265\noffsets=0,2,2,7\nvalues=68697468657265\n",
    ),
    (
        br#"{"kind":"utf8_32","offsets":[0,2],"values":"c3a9a9"}"#,
        b"ok utf8_32 1\n+c3a9\noffsets=0,2\nvalues=c3a9a9\n",
    ),
    (
        br#"{"kind":"utf8_32","offsets":[1,2],"values":"c361"}"#,
        b"ok utf8_32 1\n+61\noffsets=1,2\nvalues=c361\n",
    ),
    (
        br#"{"kind":"utf8_32","offsets":[0,0,2,2],"values":"c3a9"}"#,
        b"ok utf8_32 3\n+\n+c3a9\n+\noffsets=0,0,2,2\nvalues=c3a9\n",
    ),
    (
        br#"{"kind":"utf8_32","offsets":[1,1],"values":"c3a9"}"#,
        b"ok utf8_32 1\n+\noffsets=1,1\nvalues=c3a9\n",
    ),
    (
        br#"{"kind":"utf8_64","offsets":[0,4],"values":"f48fbfbf"}"#,
        b"ok utf8_64 1\n+f48fbfbf\noffsets=0,4\nvalues=f48fbfbf\n",
    ),
    (
        br#"{"kind":"binary64","offsets":[0],"values":"","plan":[["slice",0,0],["right",0]]}"#,
        b"ok binary64 0\noffsets=0\nvalues=\n",
    ),
    (
        br#"{"kind":"binary64","offsets":[1,1,2,4],"values":"ffaabbcc","validity":[true,false,true],"plan":[["left",2],["right",2]]}"#,
        b"ok binary64 0\noffsets=2\nvalues=ffaabbcc\n",
    ),
    (
        br#"{"kind":"binary32","offsets":[0,1,3,3,4],"values":"61c3a962","validity":[false,true,false,true],"plan":[["right",1],["to_utf8"],["left",2]]}"#,
        b"ok utf8_32 2\n+c3a9\n-\noffsets=1,3,3\nvalues=61c3a962\n",
    ),
    (
        br#"{"kind":"binary64","offsets":[0,1,2,3],"values":"ff61ff","plan":[["right",1],["left",1],["to_utf8"],["to_binary"],["to_utf8"]]}"#,
        b"ok utf8_64 1\n+61\noffsets=1,2\nvalues=ff61ff\n",
    ),
    (
        br#"{"kind":"utf8_64","offsets":[0,1,2,3,4,5,6],"values":"616263646566","plan":[["left",6],["right",1],["to_binary"],["slice",0,5],["left",4],["to_utf8"],["right",1],["slice",1,2],["to_binary"],["left",1]]}"#,
        b"ok binary64 1\n+64\noffsets=3,4\nvalues=616263646566\n",
    ),
];

#[test]
fn columns_are_printed(rt: HostRuntime) -> Result<(), Fail> {
    for (document, text) in COLUMNS {
        assert!(rt; answers(rt.alloc(), document, 0, text)?, "{text:?}");
    }
    Ok(())
}

const VIEWS: Rows<'_, 8> = [
    (
        br#"{"kind":"binview","views":[],"buffers":[]}"#,
        b"ok binview 0\n",
    ),
    (
        br#"{"kind":"binview","views":["03000000616263000000000000000000"],"buffers":[]}"#,
        b"ok binview 1\n+616263\nview=03000000616263000000000000000000\n",
    ),
    (
        br#"{"kind":"binview","views":["0c0000006162636465666768696a6b6c","0d000000616263640000000000000000"],"buffers":["6162636465666768696a6b6c6d"]}"#,
        b"ok binview 2\n+6162636465666768696a6b6c\n+6162636465666768696a6b6c6d\nview=0c0000006162636465666768696a6b6c\nview=0d000000616263640000000000000000\nbuffer=6162636465666768696a6b6c6d\n",
    ),
    (
        // views that share bytes, bytes of a null slot, and a buffer that no view names
        br#"{"validity":[true,false],"kind":"utf8view","buffers":["6162636465666768696a6b6c6d6e","FF"],"views":["0D000000616263640000000000000000","0d000000626364650000000001000000"]}"#,
        b"ok utf8view 2\n+6162636465666768696a6b6c6d\n-62636465666768696a6b6c6d6e\nview=0d000000616263640000000000000000\nview=0d000000626364650000000001000000\nbuffer=6162636465666768696a6b6c6d6e\nbuffer=ff\n",
    ),
    (
        br#"{"kind":"utf8view","views":["040000004f736c6f0000000000000000","0d00000053616e200000000000000000","00000000000000000000000000000000"],"buffers":["53616e204672616e636973636f"],"validity":[true,true,false],"plan":[["slice",1,2],["to_binary"],["to_utf8"]]}"#,
        b"ok utf8view 2\n+53616e204672616e636973636f\n-\nview=0d00000053616e200000000000000000\nview=00000000000000000000000000000000\nbuffer=53616e204672616e636973636f\n",
    ),
    (
        br#"{"kind":"utf8view","views":["040000004f736c6f0000000000000000","0d00000053616e200000000000000000","00000000000000000000000000000000"],"buffers":["53616e204672616e636973636f"],"validity":[true,true,false],"plan":[["left",1],["to_binary"]]}"#,
        b"ok binview 1\n+4f736c6f\nview=040000004f736c6f0000000000000000\nbuffer=53616e204672616e636973636f\n",
    ),
    (
        br#"{"kind":"binview","views":["02000000c3a900000000000000000000","00000000000000000000000000000000"],"buffers":[""],"plan":[["right",0],["to_utf8"],["right",2]]}"#,
        b"ok utf8view 0\nbuffer=\n",
    ),
    (
        br#"{"kind":"binview","offsets":1,"values":1,"views":["00000000000000000000000000000000"],"buffers":[],"validity":[false]}"#,
        b"ok binview 1\n-\nview=00000000000000000000000000000000\n",
    ),
];

#[test]
fn columns_of_views_are_printed(rt: HostRuntime) -> Result<(), Fail> {
    for (document, text) in VIEWS {
        assert!(rt; answers(rt.alloc(), document, 0, text)?, "{text:?}");
    }
    Ok(())
}

const BAD_VIEWS: Rows<'_, 15> = [
    (
        br#"{"kind":"binview","views":["03000000616263010000000000000000"],"buffers":[]}"#,
        b"refused parts NonZeroPadding\n",
    ),
    (
        br#"{"kind":"binview","views":["0c0000006162636465666768696a6b6c","0d000000616263640100000000000000"],"buffers":["6162636465666768696a6b6c6d"]}"#,
        b"refused parts ViewIndex\n",
    ),
    (
        br#"{"kind":"binview","views":["0c0000006162636465666768696a6b6c","0d000000616263640000000001000000"],"buffers":["6162636465666768696a6b6c6d"]}"#,
        b"refused parts BufferSlice\n",
    ),
    (
        br#"{"kind":"binview","views":["0c0000006162636465666768696a6b6c","0d000000616263650000000000000000"],"buffers":["6162636465666768696a6b6c6d"]}"#,
        b"refused parts PrefixMismatch\n",
    ),
    (
        br#"{"kind":"binview","views":["0d000000616161610000000000000000"],"buffers":[]}"#,
        b"refused parts ViewIndex\n",
    ),
    (
        br#"{"kind":"binview","views":["0d00000061616161ffffffff00000000"],"buffers":["61616161616161616161616161"]}"#,
        b"refused parts ViewIndex\n",
    ),
    (
        br#"{"kind":"binview","views":["0d0000006161616100000000ffffffff"],"buffers":["61616161616161616161616161"]}"#,
        b"refused parts BufferSlice\n",
    ),
    (
        br#"{"kind":"binview","views":["ffffffff616161610000000000000000"],"buffers":["61616161616161616161616161"]}"#,
        b"refused parts BufferSlice\n",
    ),
    (
        br#"{"kind":"binview","views":["0d000000626161610000000000000000","0d000000616161610100000000000000"],"buffers":["61616161616161616161616161"],"validity":[true]}"#,
        b"refused parts PrefixMismatch\n",
    ),
    (
        br#"{"kind":"utf8view","views":["01000000ff0000000000000000000000"],"buffers":[],"validity":[false]}"#,
        b"refused parts InvalidUtf8\n",
    ),
    (
        br#"{"kind":"utf8view","views":["01000000ff0100000000000000000000"],"buffers":[]}"#,
        b"refused parts NonZeroPadding\n",
    ),
    (
        // the buffer is UTF-8, and the view ends inside a character
        br#"{"kind":"utf8view","views":["0d000000616161610000000000000000"],"buffers":["616161616161616161616161c3a9"]}"#,
        b"refused parts InvalidUtf8\n",
    ),
    (
        br#"{"kind":"utf8view","views":["00000000000000000000000000000000"],"buffers":[],"validity":[]}"#,
        b"refused parts ValidityLength\n",
    ),
    (
        br#"{"kind":"binview","views":["00000000000000000000000000000000","02000000a9c300000000000000000000"],"buffers":[],"validity":[true,false],"plan":[["left",2],["to_utf8"]]}"#,
        b"refused step 1 InvalidUtf8\n",
    ),
    (
        br#"{"kind":"binview","views":["00000000000000000000000000000000"],"buffers":[],"plan":[["to_utf8"],["to_utf8"]]}"#,
        b"refused step 1 WrongKind\n",
    ),
];

#[test]
fn views_are_refused(rt: HostRuntime) -> Result<(), Fail> {
    for (document, text) in BAD_VIEWS {
        assert!(rt; answers(rt.alloc(), document, 1, text)?, "{text:?}");
    }
    Ok(())
}

const ONE_WIDTH: Rows<'_, 5> = [
    (
        br#"{"kind":"fixed","width":3,"values":"010203040506","plan":[["left",1]]}"#,
        b"ok fixed 1\n+010203\nwidth=3\nvalues=010203\n",
    ),
    (
        br#"{"kind":"fixed","values":"0102030405060708","width":2,"validity":[true,false,true,true],"plan":[["slice",1,2]]}"#,
        b"ok fixed 2\n-0304\n+0506\nwidth=2\nvalues=03040506\n",
    ),
    (
        br#"{"kind":"fixed","values":"","width":18446744073709551615,"plan":[["right",0]]}"#,
        b"ok fixed 0\nwidth=18446744073709551615\nvalues=\n",
    ),
    (
        br#"{"kind":"int64","numbers":[1,-1,9223372036854775807,-9223372036854775808],"validity":[true,false,true,true]}"#,
        b"ok int64 4\n+0100000000000000\n-ffffffffffffffff\n+ffffffffffffff7f\n+0000000000000080\nnumbers=1,-1,9223372036854775807,-9223372036854775808\n",
    ),
    (
        br#"{"kind":"int64","numbers":[7,258],"plan":[["right",1],["left",1]]}"#,
        b"ok int64 1\n+0201000000000000\nnumbers=258\n",
    ),
];

#[test]
fn columns_of_one_width_are_printed(rt: HostRuntime) -> Result<(), Fail> {
    for (document, text) in ONE_WIDTH {
        assert!(rt; answers(rt.alloc(), document, 0, text)?, "{text:?}");
    }
    Ok(())
}

const BAD_WIDTHS: Rows<'_, 6> = [
    (
        br#"{"kind":"fixed","width":3,"values":"01020304050607"}"#,
        b"refused parts NotMultiple\n",
    ),
    (
        br#"{"kind":"fixed","width":0,"values":"01"}"#,
        b"refused parts SizeZero\n",
    ),
    (
        br#"{"kind":"fixed","width":1,"values":"0102","validity":[true]}"#,
        b"refused parts ValidityLength\n",
    ),
    (
        br#"{"kind":"fixed","width":1,"values":"61","plan":[["left",1],["to_utf8"]]}"#,
        b"refused step 1 WrongKind\n",
    ),
    (
        br#"{"kind":"int64","numbers":[0],"plan":[["to_binary"]]}"#,
        b"refused step 0 WrongKind\n",
    ),
    (
        br#"{"kind":"int64","numbers":[0],"plan":[["right",2]]}"#,
        b"refused step 0 StepRange\n",
    ),
];

#[test]
fn columns_of_one_width_are_refused(rt: HostRuntime) -> Result<(), Fail> {
    for (document, text) in BAD_WIDTHS {
        assert!(rt; answers(rt.alloc(), document, 1, text)?, "{text:?}");
    }
    Ok(())
}

const REFUSALS: Rows<'_, 23> = [
    (
        br#"{"kind":"binary32","offsets":[],"values":""}"#,
        b"refused parts OffsetsEmpty\n",
    ),
    (
        br#"{"kind":"binary32","offsets":[-1],"values":""}"#,
        b"refused parts OffsetsNegative\n",
    ),
    (
        br#"{"kind":"binary32","offsets":[0,3,2],"values":"","validity":[true]}"#,
        b"refused parts OffsetsNotMonotone\n",
    ),
    (
        br#"{"kind":"binary32","offsets":[5],"values":""}"#,
        b"refused parts OffsetsExceedValues\n",
    ),
    (
        br#"{"kind":"binary32","offsets":[0,2,2,3],"values":"010203","validity":[true,false]}"#,
        b"refused parts ValidityLength\n",
    ),
    (
        br#"{"kind":"binary32","offsets":[0,2,2,3],"values":"010203","plan":[["slice",18446744073709551615,2]]}"#,
        b"refused step 0 StepRange\n",
    ),
    (
        br#"{"kind":"binary32","offsets":[0,2,2,3],"values":"010203","plan":[["slice",1,2],["slice",0,2],["slice",2,1]]}"#,
        b"refused step 2 StepRange\n",
    ),
    (
        br#"{"kind":"utf8_32","offsets":[0,1,2],"values":"c3a9"}"#,
        b"refused parts CharBoundary\n",
    ),
    (
        br#"{"kind":"utf8_32","offsets":[0,1,1,2],"values":"c3a9"}"#,
        b"refused parts CharBoundary\n",
    ),
    (
        br#"{"kind":"utf8_32","offsets":[5],"values":""}"#,
        b"refused parts OffsetsExceedValues\n",
    ),
    (
        br#"{"kind":"utf8_32","offsets":[0,1],"values":"ff","validity":[false]}"#,
        b"refused parts InvalidUtf8\n",
    ),
    (
        br#"{"kind":"utf8_32","offsets":[1,2],"values":"c3a9"}"#,
        b"refused parts InvalidUtf8\n",
    ),
    (
        br#"{"kind":"utf8_64","offsets":[0,3],"values":"eda080"}"#,
        b"refused parts InvalidUtf8\n",
    ),
    (
        br#"{"kind":"utf8_64","offsets":[0,2],"values":"c080"}"#,
        b"refused parts InvalidUtf8\n",
    ),
    (
        br#"{"kind":"utf8_32","offsets":[0,4],"values":"f4908080","validity":[]}"#,
        b"refused parts InvalidUtf8\n",
    ),
    (
        br#"{"kind":"binary64","offsets":[9223372036854775807],"values":""}"#,
        b"refused parts OffsetsExceedValues\n",
    ),
    (
        br#"{"kind":"binary32","offsets":[0,1,2,3],"values":"6162ff","validity":[true,true,false],"plan":[["slice",0,3],["right",0],["to_utf8"]]}"#,
        b"refused step 2 InvalidUtf8\n",
    ),
    (
        br#"{"kind":"binary64","offsets":[0,1,2],"values":"c3a9","plan":[["to_utf8"]]}"#,
        b"refused step 0 CharBoundary\n",
    ),
    (
        br#"{"kind":"binary32","offsets":[0,2,2,3],"values":"010203","validity":[true,false,true],"plan":[["to_binary"]]}"#,
        b"refused step 0 WrongKind\n",
    ),
    (
        br#"{"kind":"utf8_64","offsets":[0,1],"values":"61","plan":[["to_utf8"]]}"#,
        b"refused step 0 WrongKind\n",
    ),
    (
        br#"{"kind":"utf8_32","offsets":[0,1],"values":"61","plan":[["left",1],["left",2]]}"#,
        b"refused step 1 StepRange\n",
    ),
    (
        br#"{"kind":"utf8_32","offsets":[0,1],"values":"61","plan":[["right",1],["right",1]]}"#,
        b"refused step 1 StepRange\n",
    ),
    (
        br#"{"kind":"binary64","offsets":[0],"values":"","plan":[["right",18446744073709551615]]}"#,
        b"refused step 0 StepRange\n",
    ),
];

#[test]
fn parts_and_steps_are_refused(rt: HostRuntime) -> Result<(), Fail> {
    for (document, text) in REFUSALS {
        assert!(rt; answers(rt.alloc(), document, 1, text)?, "{text:?}");
    }
    Ok(())
}

const NO_DOCUMENTS: Rows<'_, 19> = [
    (br#"{"kind":"bin"#, b"document json\n"),
    (b"", b"document json\n"),
    (b"\xff", b"document json\n"),
    (b"{\"kind\":\"binary32\xc3\"}", b"document json\n"),
    (b"{}", b"document field kind\n"),
    (b"[]", b"document field kind\n"),
    (
        br#"{"kind":"binary32","offsets":[0,2,1.5,3],"values":"010203"}"#,
        b"document field offsets\n",
    ),
    (
        br#"{"kind":"binary32","offsets":[2147483648],"values":""}"#,
        b"document field offsets\n",
    ),
    (
        br#"{"kind":"binary32","offsets":[0],"values":"0"}"#,
        b"document field values\n",
    ),
    (
        br#"{"kind":"binary32","offsets":[0],"values":"","validity":1}"#,
        b"document field validity\n",
    ),
    (
        br#"{"kind":"binary32","offsets":[0],"values":"","plan":[["turn"]]}"#,
        b"document field plan\n",
    ),
    (
        br#"{"kind":"utf8_64","offsets":[9223372036854775808],"values":""}"#,
        b"document field offsets\n",
    ),
    (
        br#"{"kind":"utf8_32","offsets":[0],"values":"","plan":[["left"]]}"#,
        b"document field plan\n",
    ),
    (
        br#"{"kind":"binview","buffers":[]}"#,
        b"document field views\n",
    ),
    (
        br#"{"kind":"utf8view","views":["0000000000000000000000000000000"],"buffers":[]}"#,
        b"document field views\n",
    ),
    (
        br#"{"kind":"utf8view","views":[],"buffers":["0"]}"#,
        b"document field buffers\n",
    ),
    (
        br#"{"kind":"fixed","values":"00"}"#,
        b"document field width\n",
    ),
    (
        br#"{"kind":"int64","numbers":[1.5]}"#,
        b"document field numbers\n",
    ),
    (
        br#"{"kind":"utf8_32","plan":[["gc"]]}"#,
        b"document field offsets\n",
    ),
];

#[test]
fn what_is_no_document_is_told(rt: HostRuntime) -> Result<(), Fail> {
    for (document, text) in NO_DOCUMENTS {
        assert!(rt; answers(rt.alloc(), document, 2, text)?, "{text:?}");
    }
    Ok(())
}

#[test]
fn nesting_is_read_to_its_limit(rt: HostRuntime) -> Result<(), Fail> {
    assert!(rt; is_nested(rt.alloc(), 126, b"document field kind\n")?);
    assert!(rt; is_nested(rt.alloc(), 127, b"document json\n")?);
    Ok(())
}

#[test]
fn each_part_of_a_document_is_none(rt: HostRuntime) -> Result<(), Fail> {
    assert!(rt; FIRST.len() == 96);
    for end in 0..FIRST.len() {
        assert!(rt;
            answers(rt.alloc(), &FIRST[..end], 2, b"document json\n")?,
            "{end}"
        );
    }
    Ok(())
}

#[test]
fn the_longest_document_is_read(rt: HostRuntime) -> Result<(), Fail> {
    assert!(rt; blanks_answer(rt.alloc(), 16_777_216, 2, b"document json\n")?);
    assert!(rt; blanks_answer(rt.alloc(), 16_777_217, 6, b"")?);
    Ok(())
}

#[test]
fn a_failed_read_ends_the_run(rt: HostRuntime) -> Result<(), Fail> {
    for call in 1..12u64 {
        assert!(rt; fails_at_read(rt.alloc(), call, 4, b"")?, "{call}");
    }
    assert!(rt; fails_at_read(rt.alloc(), 1000, 0, FIRST_TEXT)?);
    Ok(())
}

#[test]
fn a_failed_write_ends_the_run(rt: HostRuntime) -> Result<(), Fail> {
    assert!(rt; FIRST_TEXT.len() == 56);
    for call in 1..7usize {
        assert!(rt;
            fails_at_write(rt.alloc(), call, &FIRST_TEXT[..10 * (call - 1)])?,
            "{call}"
        );
    }
    Ok(())
}

#[test]
fn a_full_sink_ends_the_run(rt: HostRuntime) -> Result<(), Fail> {
    for (room, status) in [(0usize, 5u8), (1, 5), (55, 5), (56, 0)] {
        assert!(rt; ends_full(rt.alloc(), room, status)?, "{room}");
    }
    Ok(())
}

const WORDS: [&[&str]; 7] = [
    &[],
    &["relayout", "relayout"],
    &["Relayout"],
    &["--help"],
    &["--version"],
    &["make", "8"],
    &[""],
];

#[test]
fn other_words_read_nothing(rt: HostRuntime) -> Result<(), Fail> {
    for words in WORDS {
        assert!(rt; words_read_nothing(rt.alloc(), words)?, "{words:?}");
    }
    Ok(())
}
