// The places of paths as they are shown, and the names of elements; what is expected is counted by hand.
use crate::annotations::{index_sets, is_noted};
use crate::labels::element_name;
use crate::places::place_of;
use crate::shown::shown;
use flattokens::Token;
use flatzinc::trouble::Trouble;
use std::alloc::Global;
use std::test::Fail;

// What a path says, as FILE and LINE from /models; an empty file for none.
fn told(alloc: Global, path: &[u8], file: &[u8], line: usize) -> Result<bool, Trouble> {
    let notes = [
        Token::Colons,
        Token::Name(b"mzn_path"),
        Token::Sign(b'('),
        Token::Text(path),
        Token::Sign(b')'),
    ];
    match place_of(alloc, b"/pearrummy/mznlib/", &notes)? {
        None => Ok(file.is_empty()),
        Some(place) => {
            let place = shown(alloc, b"/models", &place)?;
            Ok(place.file.as_slice() == file && place.line == line)
        }
    }
}

#[test]
fn paths_say_places(rt: HostRuntime) -> Result<(), Fail> {
    let alloc = rt.alloc();
    assert!(rt;
        told(
            alloc,
            b"\"/models/m.mzn|7|12|7|26|ca|less;/models/own.mzn|1|42|1|51|bin|\"",
            b"m.mzn",
            7
        )?
    );
    assert!(rt;
        told(
            alloc,
            b"\"/usr/share/minizinc/std/all.mzn|6|5|6|60|ca|forall;/models/m.mzn|7|1|7|2|id|x;\"",
            b"m.mzn",
            7
        )?
    );
    assert!(rt;
        told(
            alloc,
            b"\"/pearrummy/mznlib/a.mzn|42|3|48|7|l;/models/m.mzn|7|1|7|2|id|x;\"",
            b"m.mzn",
            7
        )?
    );
    assert!(rt;
        told(
            alloc,
            b"\"/models/m.mzn|1|50|1|50|id|p;/models/m.mzn|1|40|1|50|vd;;/models/m.mzn|7|12|7|23|bin|\"",
            b"m.mzn",
            7
        )?
    );
    assert!(rt;
        told(
            alloc,
            b"\"/models/m.mzn|7|50|7|50|id|p;/models/m.mzn|8|40|8|50|vd;;\"",
            b"m.mzn",
            7
        )?
    );
    assert!(rt; told(alloc, b"\"/other/m.mzn|7|1|7|2|id|x;\"", b"/other/m.mzn", 7)?);
    assert!(rt; told(alloc, b"\"stdin|3|12|3|20|bin|\"", b"stdin", 3)?);
    Ok(())
}

#[test]
fn odd_paths(rt: HostRuntime) -> Result<(), Fail> {
    let alloc = rt.alloc();
    assert!(rt;
        told(
            alloc,
            b"\"/models/a b\\\"|;%.mzn|7|1|7|2|id|x;\"",
            b"a b\"|;%.mzn",
            7
        )?
    );
    assert!(rt;
        told(
            alloc,
            b"\"/models/a\tb\x01.mzn|7|1|7|2|id|x;\"",
            b"a?b?.mzn",
            7
        )?
    );
    assert!(rt;
        told(
            alloc,
            b"\"/models/m.mzn|999999999|1|7|2|id|x;\"",
            b"m.mzn",
            999999999
        )?
    );
    assert!(rt; told(alloc, b"\"/models/m.mzn|9999999999|1|7|2|id|x;\"", b"", 0)?);
    assert!(rt; told(alloc, b"\"/models/m.mzn|0|1|7|2|id|x;\"", b"", 0)?);
    assert!(rt; told(alloc, b"\"/models/m.mzn|7|1|7|\"", b"", 0)?);
    assert!(rt; told(alloc, b"\"|7|1|7|2|id|x;\"", b"", 0)?);
    assert!(rt; told(alloc, b"\"|||||;|||||\"", b"", 0)?);
    Ok(())
}

#[test]
fn long_paths(rt: HostRuntime) -> Result<(), Fail> {
    let alloc = rt.alloc();
    let semicolons = vec![in alloc; b';'; 1_000_000]?;
    assert!(rt; told(alloc, &semicolons, b"", 0)?);
    let bars = vec![in alloc; b'|'; 1_000_000]?;
    assert!(rt; told(alloc, &bars, b"", 0)?);
    let mut numbers = Vec::new(alloc);
    for _ in 0..500_000 {
        numbers.extend_from_slice(b"|7")?;
    }
    assert!(rt; told(alloc, &numbers, b"", 0)?);
    Ok(())
}

#[test]
fn elements_have_names(rt: HostRuntime) -> Result<(), Fail> {
    let alloc = rt.alloc();
    let notes = [
        Token::Name(b"output_array"),
        Token::Sign(b'('),
        Token::Sign(b'['),
        Token::Number(1),
        Token::Dots,
        Token::Number(2),
        Token::Sign(b','),
        Token::Number(-1),
        Token::Dots,
        Token::Number(1),
        Token::Sign(b']'),
        Token::Sign(b')'),
        Token::Number(9),
    ];
    assert!(rt; is_noted(&notes, b"output_array"));
    assert!(rt; !is_noted(&notes, b"output_var"));
    let sets = index_sets(alloc, &notes)?;
    let fifth = element_name(alloc, b"a", &sets, 4)?;
    assert!(rt; fifth.is_some_and(|name| name.as_slice() == b"a[2,0]".as_slice()));
    assert!(rt; element_name(alloc, b"a", &sets, 6)?.is_none());
    Ok(())
}
