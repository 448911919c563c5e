use ft_base::{List, NoMemory, Text};
use ft_certs::{CertText, read_certs, write_certs};
use std::alloc::Global;
use std::test::Fail;

/// What stands after `ftv certificates 1`, LF and `set `, and the line and the column at which it is refused; none where it is read.
const CERTIFICATES: [(&str, Option<(u32, u32)>); 29] = [
    ("x\nlist 0\nend\n", None),
    (
        "x\nlist 2\n-5,0,999999999999999999\n7\nobligation 1\nF\nend\n",
        None,
    ),
    (
        "x\nlist 0\nobligation 1\nR 0 -4\nS 4+3 1-0 1<2\nT 7 1>0\nC 2\nL\nF\nend\n",
        None,
    ),
    (
        "x\nlist 0\nobligation 1\nS\nobligation 2\nS 18446744073709551615+4294967295\nend\n",
        None,
    ),
    ("A_9\nlist 0\nend\n", None),
    // the set's name
    ("", Some((2, 5))),
    ("set\nlist 0\nend\n", Some((2, 8))),
    ("sets\nlist 0\nend\n", None),
    ("9x\n", Some((2, 5))),
    ("a b\n", Some((2, 6))),
    ("x\r\n", Some((2, 6))),
    ("aaaaaaaaaaaaaaaaaaaaaaaaaaaaaaaaaaaaaaaaa\n", Some((2, 45))),
    // the list
    ("x\nlist 00\nend\n", Some((3, 7))),
    ("x\nlist 4294967296\nend\n", Some((3, 15))),
    ("x\nlist 1\nobligation 1\nF\nend\n", Some((4, 1))),
    ("x\nlist 1\n-0\nend\n", Some((4, 2))),
    ("x\nlist 1\n1000000000000000000\nend\n", Some((4, 19))),
    ("x\nlist 1\n1,\nend\n", Some((4, 3))),
    // certificates
    ("x\nlist 0\nobligation 2\nF\nend\n", Some((4, 12))),
    ("x\nlist 0\nobligation 1\nend\n", Some((5, 1))),
    ("x\nlist 0\nobligation 1\nF\nF\nend\n", Some((6, 1))),
    ("x\nlist 0\nobligation 1\nC 0\nF\nend\n", Some((7, 1))),
    ("x\nlist 0\nobligation 1\nR 0 1\nF\n", Some((7, 1))),
    ("x\nlist 0\nobligation 1\nS 1+\nend\n", Some((5, 5))),
    ("x\nlist 0\nobligation 1\nS 1*3\nend\n", Some((5, 4))),
    ("x\nlist 0\nobligation 1\nT 0 01+1\nF\nend\n", Some((5, 6))),
    (
        "x\nlist 0\nobligation 1\nS 18446744073709551616+0\nend\n",
        Some((5, 22)),
    ),
    // the end
    ("x\nlist 0\nend", Some((4, 4))),
    ("x\nlist 0\nend\n\n", Some((5, 1))),
];

fn text_of(alloc: Global, rest: &str) -> Result<Text, NoMemory> {
    let mut text = List::copy_of(alloc, b"ftv certificates 1\nset ")?;
    text.extend(rest.as_bytes())?;
    Ok(text)
}

/// Where a text is refused.
fn refused_at(alloc: Global, text: &[u8]) -> Result<Option<(u32, u32)>, NoMemory> {
    if text.len() >= u32::MAX as usize {
        return Err(NoMemory);
    }
    match read_certs(alloc, text) {
        Ok(_) => Ok(None),
        Err(CertText::Text { place }) => Ok(Some((place.line, place.column))),
        Err(CertText::NoMemory) => Err(NoMemory),
    }
}

#[test]
fn reads_certificates(rt: HostRuntime) -> Result<(), Fail> {
    for (rest, wanted) in CERTIFICATES {
        let text = text_of(rt.alloc(), rest)?;
        let found = refused_at(rt.alloc(), text.as_slice())?;
        assert_eq!(rt; found, wanted, "{rest}");
    }
    Ok(())
}

/// Whether the text of what a text spells is that text.
fn is_written_again(alloc: Global, text: &[u8]) -> Result<bool, NoMemory> {
    if text.len() >= u32::MAX as usize {
        return Err(NoMemory);
    }
    let Ok(certs) = read_certs(alloc, text) else {
        return Ok(false);
    };
    if certs.certs.len() >= u32::MAX as usize {
        return Err(NoMemory);
    }
    let again = write_certs(alloc, &certs)?;
    Ok(again.as_slice() == text)
}

#[test]
fn writes_what_it_read(rt: HostRuntime) -> Result<(), Fail> {
    for (rest, refused) in CERTIFICATES {
        let text = text_of(rt.alloc(), rest)?;
        let again = is_written_again(rt.alloc(), text.as_slice())?;
        assert_eq!(rt; again, refused.is_none(), "{rest}");
    }
    Ok(())
}
