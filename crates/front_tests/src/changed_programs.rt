//! A program of all rules, with each of its tokens dropped or replaced in turn.

use crate::refused_programs::refusal;
use crate::tables::column;
use jif_parse::ParseError;
use std::alloc::Global;
use std::test::Fail;

/// A program of all rules, with a blank between each two tokens.
const PROGRAM: &str = "int { A : B , C ; D : ; ? : A , B } f ; \
    int { ? : } a [ 3 ] ; \
    int { } g = - 2 ; \
    int { } h = 5 ; \
    int { A : } m { } ( int { } p , int { } q ) where authority ( A , B ) { \
    int { } x = 1 ; \
    int y = a [ p ] || q && 1 == 2 < 3 + 4 * ! - 5 ; \
    x = ( y ) ; \
    a [ x ] = declassify ( x , { A : } ) ; \
    n ( ) ; \
    x = m ( 1 , endorse ( 2 , { } ) ) ; \
    if ( x ) { y = 0 ; } else { while ( y ) { } } \
    if ( x ) { } \
    return x ; \
    } \
    void n { A : B } ( ) { }";

/// How far behind each token the place of the fault is where something else stands in its place: `a` for the token
/// itself, `b` for the next one, and so on, and `.` where what results is a program. Then what stands there, in the
/// first row nothing.
const CHANGES: &str = "\
    aaaaaaaaaaaaaaaaaaaaaaabaaaaaaabaa.aaaabaaaaaaaabaaaaaabaaaabaaaaaaaaaaaabaaaa.aaaaaoaaaaa\
    aaaaaa..aaa.baaaaaaaacaaaaaaaaaaaaaaacaaacaaaaabaaaaaaaaaaaaaaaaaaahgaaaaaabaaaaaaaa.aaaaa | \n\
    aafaaaaacaa.aaaaaaaaa.aaaaaaaaabaaaaaaabaaaaaa.aaaabaaabaaaabaaaaaaaaaaaabaaaaaaaaaaaaaaaa\
    aaaaaaaaaaaaaaaaaaaaaaaaaa.aaaaaaaaaaaaaaaaaaabaaaaaaaaaaaaaaaaaaaaaaaaaaaaaaaaaaa.aaaaaaa | ?\n\
    aa.a.a.a.ab.a.a.a.aaa.ab.aaaaaab.aaaaaab.aaaaa.ab.abaaab.aaab.aaaa.a.aabbb.a.ab.a.a.aa.a.a\
    .a.a.a.b.a.ab.aa.a.aaba.aa.abaa.aba.a.a.aba.aabaaaea.aa.a.abbaea.aabbea.aabb.aaa.a.a.aaaab | x\n\
    aaaaaaaaaaaaaaaaaaaaaaaaaaaaaaaaaaaaaaaaaaaaaaaaaaaaaaaaaaaaaaaaaaaaaaaaaaaaaaaaaaaaaaaaaa\
    aaaaaaaaaaaaaaaaaaaaaaaaaaaaaaaaaaaaaaaaaaaaaaaaaaaaaaaaaaaa.aaaaaaaaaaaaaabaaaaaaaaaaaaaa | else\n\
    aaaaaaaaaaaaaaaaaaaaaaaaaaaaaaaaaaaaaaaaaaaaaaaaaaaaadaaabaaaa.aaaaba.aaaaaaaaaaaaaaaaaaaa\
    aaaaaaaaaaaaaa.aaaaaaaaaaaaaa.aaa.aaaaabbaaaaaa..aaaa.aaaaaaaaaaa.aaaaaa.aaaaaaaaaaaaaa.aa | )\n\
    aaaaaaaaaaaaaaaaaaaaaaaaaaaaaaaaaab.aaaaaa.aaaaaaaaaaaaaaaaaaaaaaaaaaaaaaaaa.aaaaba.aa.a.a\
    .a.a.a.b.aaab.aaaa.aaba.aaaaaaaaabaaaba.aba.aaaaaaaa.aaaa.aaaaaa.aaaaaa.aaaa.aaaaaaaaaaaaa | 0";

/// The program with this in place of the token of this number.
fn changed(alloc: Global, place: usize, other: &str) -> Result<String, Fail> {
    let mut text = String::new(alloc);
    for (number, token) in PROGRAM.split_whitespace().enumerate() {
        text.push_str(if number == place { other } else { token })?;
        text.push_str(" ")?;
    }
    Ok(text)
}

/// How far behind the place of a change its fault is, as the table tells it.
fn distance(place: usize, refused: Option<ParseError>) -> char {
    let fault = match refused {
        None => return '.',
        Some(ParseError::Unexpected(fault)) => fault,
        Some(_) => return '?',
    };
    match (fault as usize).checked_sub(place) {
        Some(distance) if distance < 26 => (b'a' + distance as u8) as char,
        _ => '?',
    }
}

/// How far the fault is for each token in turn.
fn distances(alloc: Global, other: &str) -> Result<String, Fail> {
    let mut letters = String::new(alloc);
    for (place, _) in PROGRAM.split_whitespace().enumerate() {
        let text = changed(alloc, place, other)?;
        letters.push(distance(place, refusal(alloc, text.as_str())?))?;
    }
    Ok(letters)
}

#[test]
fn names_the_fault_of_each_changed_token(rt: HostRuntime) -> Result<(), Fail> {
    let alloc = rt.alloc();
    assert_eq!(rt; refusal(alloc, PROGRAM)?, None);
    for row in CHANGES.lines() {
        let other = column(row, 1);
        let found = distances(alloc, other)?;
        assert_eq!(rt; found.as_str(), column(row, 0), "with {other:?}");
    }
    Ok(())
}
