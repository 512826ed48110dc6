use notation::reading::{Entry, read};
use std::alloc::{AllocError, Global};
use std::test::Fail;

fn is_case(heap: Global, line: &str) -> bool {
    matches!(read(heap, line.as_bytes()), Ok(Entry::Try(..)))
}

// Whether the text is read as an operand.
fn is_operand(heap: Global, text: &str) -> Result<bool, AllocError> {
    let line = format!(in heap; "not {text} = U:1")?;
    Ok(is_case(heap, line.as_str()))
}

#[test]
fn operands(rt: HostRuntime) -> Result<(), Fail> {
    let heap = rt.alloc();
    let texts =
        "C:1:1 C:64:18446744073709551615 C:008:0255 U:1 U:64 S:4294967295 S:8{31,31} M0:0 M255:0{0,30}";
    for text in texts.split(' ') {
        assert!(rt; is_operand(heap, text)?);
    }
    Ok(())
}

#[test]
fn no_operands(rt: HostRuntime) -> Result<(), Fail> {
    let heap = rt.alloc();
    let numbers =
        "C:8:256 C:0:0 C:65:1 C:256:1 C:8:+1 C:8:-1 C:8:1_0 C:64:18446744073709551616 C:8:é U:0 U:65";
    let pointers =
        "S:4294967296 S:8{0,31} S:8{7,6} S:8{0,32} S:8{0,7 S:8{0} S:8{0,7}} S:{0,7} M:0 M256:0";
    let others = "C C:8 C:8: C::1 C:8:1:1 U:8:0 S: X:8 c:8:1";
    for text in numbers
        .split(' ')
        .chain(pointers.split(' '))
        .chain(others.split(' '))
    {
        assert!(rt; !is_operand(heap, text)?);
    }
    Ok(())
}

#[test]
fn words(rt: HostRuntime) -> Result<(), Fail> {
    let heap = rt.alloc();
    for word in "not {0,255} extu:0 exts:255".split(' ') {
        let line = format!(in heap; "{word} U:1 = !13")?;
        assert!(rt; is_case(heap, line.as_str()));
    }
    for word in "+ :: extu extu: exts:256 {0,256} {0} {0,1 0,1} Not".split(' ') {
        let line = format!(in heap; "{word} U:1 = !1")?;
        assert!(rt; !is_case(heap, line.as_str()));
    }
    for result in "! !0 !14 !257 !+1 1 !C:8:1".split(' ') {
        let line = format!(in heap; "not U:1 = {result}")?;
        assert!(rt; !is_case(heap, line.as_str()));
    }
    Ok(())
}

#[test]
fn lines(rt: HostRuntime) {
    let heap = rt.alloc();
    assert!(rt; matches!(read(heap, b" \t\r\n"), Ok(Entry::Nothing)));
    assert!(rt; is_case(heap, "\t=  C:8:1 \tC:8:1 = C:1:1 \r\n"));
    assert!(rt; matches!(read(heap, b"sizes"), Ok(Entry::Sizes(_))));
    assert!(rt; read(heap, b"not C:8:1 = \xff").is_err());
    let sizes = "sizes 0|sizes 65536|sizes 1 x";
    let cases =
        "= C:8:1 = C:1:1|not C:8:1 C:8:1 = C:8:1|+ C:8:1 C:8:1 C:8:2|not C:8:1 = C:8:254 =|= = = =|=|\0|\rnot";
    for line in sizes.split('|').chain(cases.split('|')) {
        assert!(rt; read(heap, line.as_bytes()).is_err());
    }
}

// A line of as many sizes.
fn sizes(heap: Global, count: usize) -> Result<String, AllocError> {
    format!(in heap; "sizes{}", " 65535".repeat(heap, count)?)
}

#[test]
fn region_tables(rt: HostRuntime) -> Result<(), Fail> {
    let heap = rt.alloc();
    assert!(rt; read(heap, sizes(heap, 64)?.as_bytes()).is_ok());
    assert!(rt; read(heap, sizes(heap, 65)?.as_bytes()).is_err());
    Ok(())
}
