//! Plans with steps that write a column anew.

use crate::checks::answers;
use std::test::Fail;

// documents, each with what is printed for it
type Rows<'a, const N: usize> = [(&'a [u8], &'a [u8]); N];

const WRITTEN: Rows<'_, 12> = [
    (
        br#"{"kind":"binview","views":["0d000000636363630200000000000000","0d000000616161610000000000000000","0d000000636363630200000000000000"],"buffers":["61616161616161616161616161","62626262626262626262626262","63636363636363636363636363"],"plan":[["dedupe"]]}"#,
        b"ok binview 3\n+63636363636363636363636363\n+61616161616161616161616161\n+63636363636363636363636363\nview=0d000000636363630000000000000000\nview=0d000000616161610100000000000000\nview=0d000000636363630000000000000000\nbuffer=63636363636363636363636363\nbuffer=61616161616161616161616161\n",
    ),
    (
        br#"{"kind":"binview","views":["0d000000616161610000000002000000"],"buffers":["7a7a61616161616161616161616161"],"validity":[false],"plan":[["gc"]]}"#,
        b"ok binview 1\n-61616161616161616161616161\nview=0d000000616161610000000000000000\nbuffer=61616161616161616161616161\n",
    ),
    (
        br#"{"kind":"binview","views":["03000000616263000000000000000000"],"buffers":[],"plan":[["gc"]]}"#,
        b"ok binview 1\n+616263\nview=03000000616263000000000000000000\n",
    ),
    (
        br#"{"kind":"binary32","offsets":[0,8,8],"values":"0100000000000000","validity":[true,false],"plan":[["rebuild","int64"]]}"#,
        b"ok int64 2\n+0100000000000000\n-0000000000000000\nnumbers=1,0\n",
    ),
    (
        br#"{"kind":"binary64","offsets":[0,1,2,4],"values":"aabbccdd","validity":[true,false,true],"plan":[["slice",1,2],["append",["ee","",null]]]}"#,
        b"ok binary64 5\n-bb\n+ccdd\n+ee\n+\n-\noffsets=0,1,3,4,4,4\nvalues=bbccddee\n",
    ),
    (
        br#"{"kind":"binary64","offsets":[0,1,2,4],"values":"aabbccdd","validity":[true,false,true],"plan":[["slice",1,2],["append",["ee","",null]],["left",1]]}"#,
        b"ok binary64 1\n-bb\noffsets=0,1\nvalues=bbccddee\n",
    ),
    (
        br#"{"kind":"utf8view","views":["040000004f736c6f0000000000000000","0d00000053616e200000000000000000","00000000000000000000000000000000"],"buffers":["53616e204672616e636973636f"],"validity":[true,true,false],"plan":[["left",2],["rebuild","utf8_64"]]}"#,
        b"ok utf8_64 2\n+4f736c6f\n+53616e204672616e636973636f\noffsets=0,4,17\nvalues=4f736c6f53616e204672616e636973636f\n",
    ),
    (
        br#"{"kind":"binview","views":["0c0000006162636465666768696a6b6c","0d000000616263640000000000000000"],"buffers":["6162636465666768696a6b6c6d"],"plan":[["append",["6162636465666768696a6b6c6d6e"]]]}"#,
        b"ok binview 3\n+6162636465666768696a6b6c\n+6162636465666768696a6b6c6d\n+6162636465666768696a6b6c6d6e\nview=0c0000006162636465666768696a6b6c\nview=0d000000616263640000000000000000\nview=0e000000616263640100000000000000\nbuffer=6162636465666768696a6b6c6d\nbuffer=6162636465666768696a6b6c6d6e\n",
    ),
    (
        br#"{"kind":"binview","views":["0c0000006162636465666768696a6b6c","0d000000616263640000000000000000"],"buffers":["6162636465666768696a6b6c6d"],"plan":[["append",["6162636465666768696a6b6c6d6e"]],["left",1]]}"#,
        b"ok binview 1\n+6162636465666768696a6b6c\nview=0c0000006162636465666768696a6b6c\nbuffer=6162636465666768696a6b6c6d\nbuffer=6162636465666768696a6b6c6d6e\n",
    ),
    (
        br#"{"kind":"binview","views":[],"buffers":[],"plan":[["append",["61616161616161616161616161"]],["append",["62626262626262626262626262",null]]]}"#,
        b"ok binview 3\n+61616161616161616161616161\n+62626262626262626262626262\n-\nview=0d000000616161610000000000000000\nview=0d000000626262620100000000000000\nview=00000000000000000000000000000000\nbuffer=61616161616161616161616161\nbuffer=62626262626262626262626262\n",
    ),
    (
        br#"{"kind":"int64","numbers":[-1,2],"validity":[true,false],"plan":[["rebuild","fixed",8],["append",["0000000000000080",null]]]}"#,
        b"ok fixed 4\n+ffffffffffffffff\n-0000000000000000\n+0000000000000080\n-0000000000000000\nwidth=8\nvalues=ffffffffffffffff000000000000000000000000000000800000000000000000\n",
    ),
    (
        br#"{"kind":"fixed","width":2,"values":"61626364","validity":[false,true],"plan":[["rebuild","binview"],["append",[null,"65"]]]}"#,
        b"ok binview 4\n-\n+6364\n-\n+65\nview=00000000000000000000000000000000\nview=02000000636400000000000000000000\nview=00000000000000000000000000000000\nview=01000000650000000000000000000000\n",
    ),
];

#[test]
fn columns_that_were_written_anew_are_printed(rt: HostRuntime) -> Result<(), Fail> {
    for (document, text) in WRITTEN {
        assert!(rt; answers(rt.alloc(), document, 0, text)?, "{text:?}");
    }
    Ok(())
}

const NOT_WRITTEN: Rows<'_, 7> = [
    (
        br#"{"kind":"binary32","offsets":[0,2,2,3],"values":"010203","validity":[true,false,true],"plan":[["gc"]]}"#,
        b"refused step 0 WrongKind\n",
    ),
    (
        br#"{"kind":"binary32","offsets":[0,2,2,3],"values":"010203","validity":[true,false,true],"plan":[["left",2],["dedupe"]]}"#,
        b"refused step 1 WrongKind\n",
    ),
    (
        br#"{"kind":"binary32","offsets":[0,2,2,3],"values":"010203","validity":[true,false,true],"plan":[["rebuild","utf8_32"]]}"#,
        b"refused step 0 WrongKind\n",
    ),
    (
        br#"{"kind":"binary32","offsets":[0,2,2,3],"values":"010203","validity":[true,false,true],"plan":[["rebuild","fixed",0]]}"#,
        b"refused step 0 SizeZero\n",
    ),
    (
        br#"{"kind":"utf8_32","offsets":[0,2,2,7],"values":"68697468657265","plan":[["append",["ff"]]]}"#,
        b"refused step 0 InvalidUtf8\n",
    ),
    (
        br#"{"kind":"fixed","width":3,"values":"010203040506","plan":[["append",["01"]]]}"#,
        b"refused step 0 WrongLength\n",
    ),
    (
        br#"{"kind":"binary32","offsets":[0,7],"values":"01000000000000","plan":[["rebuild","int64"]]}"#,
        b"refused step 0 WrongLength\n",
    ),
];

#[test]
fn columns_are_not_written_anew(rt: HostRuntime) -> Result<(), Fail> {
    for (document, text) in NOT_WRITTEN {
        assert!(rt; answers(rt.alloc(), document, 1, text)?, "{text:?}");
    }
    Ok(())
}
