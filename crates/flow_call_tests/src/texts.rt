//! What becomes of a program's text: its tokens, its printed form, and what reads and checks it.
use flow_base::code::Code;
use flow_base::command::TextFault;
use flow_base::text::RawText;
use flow_base::token::{Token, Word};
use flow_check::language::Language;
use flow_check::texts::Texts;
use flow_syntax::parse::parse;
use flow_syntax::print::print;
use flow_tokens::{Tokens, tokens};
use std::alloc::{AllocError, Global};
use std::test::Fail;

/// The token in a few letters: its word, and where it begins and ends.
fn shown(alloc: Global, token: &Token) -> Result<String, AllocError> {
    let from = token.from;
    let to = token.to;
    match &token.word {
        Word::Name(name) => {
            let name = name.as_str();
            format!(in alloc; "name {name} {from} {to}, ")
        }
        Word::Int(number) => format!(in alloc; "int {number} {from} {to}, "),
        Word::Text(text) => {
            let text = text.as_str();
            format!(in alloc; "text {text} {from} {to}, ")
        }
        Word::Mark(mark) => format!(in alloc; "{mark:?} {from} {to}, "),
    }
}

fn all_shown(alloc: Global, tokens: &Tokens) -> Result<String, AllocError> {
    let mut all = String::new(alloc);
    for token in &tokens.list {
        let one = shown(alloc, token)?;
        all.push_str(one.as_str())?;
    }
    if let Some(at) = tokens.fault {
        let fault = format!(in alloc; "E10 at {at}")?;
        all.push_str(fault.as_str())?;
    }
    Ok(all)
}

// Whether a text is cut into these tokens.
fn is_cut_as(alloc: Global, text: &str, wanted: &str) -> bool {
    match tokens(alloc, text) {
        Ok(found) => is_shown_as(alloc, &found, wanted),
        Err(_fault) => false,
    }
}

fn is_shown_as(alloc: Global, found: &Tokens, wanted: &str) -> bool {
    match all_shown(alloc, found) {
        Ok(shown) => shown.as_str() == wanted,
        Err(_refused) => false,
    }
}

/// Texts, each with its tokens: words and numbers, signs, a text with its escapes, and a fault behind a token.
const CUT: &[(&str, &str)] = &[
    (
        "let a_1 = 42;",
        "Let 0 3, name a_1 4 7, Assign 8 9, int 42 10 12, Semicolon 12 13, ",
    ),
    (
        "= = == === != >= >",
        "Assign 0 1, Assign 2 3, Equal 4 6, Equal 7 9, Assign 9 10, Differ 11 13, AtLeast 14 16, Greater 17 18, ",
    ),
    (
        "(){},;:*/%-1",
        "Open 0 1, Close 1 2, BraceOpen 2 3, BraceClose 3 4, Comma 4 5, Semicolon 5 6, Colon 6 7, Times 7 8, Over 8 9, Percent 9 10, Minus 10 11, int 1 11 12, ",
    ),
    (r#""a\"b\\c\n" 1"#, "text a\"b\\c\n 0 11, int 1 12 13, "),
    ("a ! b", "name a 0 1, E10 at 2"),
];

// The number of the first text that is cut into other tokens; how many there are where none is such.
fn first_other_tokens(alloc: Global, rows: &[(&str, &str)]) -> usize {
    for i in 0..rows.len() {
        let (text, wanted) = rows[i];
        if !is_cut_as(alloc, text, wanted) {
            return i;
        }
    }
    rows.len()
}

#[test]
fn texts_are_cut_into_tokens(rt: HostRuntime) -> Result<(), Fail> {
    assert!(rt; first_other_tokens(rt.alloc(), CUT) == 5);
    Ok(())
}

/// Programs, each with what it prints as.
const PRINTED: &[(&str, &str)] = &[
    ("workflow e() {}", "workflow e ( ) { }"),
    (
        "workflow a(n: int) { activity c(int, text) -> int; let r = 0; r = call c(n, \"eur\"); return r + 1; }",
        "workflow a ( n : int ) { activity c ( int , text ) -> int ; let r = 0 ; r = call c ( n , \"eur\" ) ; return r + 1 ; }",
    ),
    (
        "workflow e() { return (1 + 2) * ((3)) - (4 ++ 5); }",
        "workflow e ( ) { return ( 1 + 2 ) * 3 - ( 4 ++ 5 ) ; }",
    ),
    (
        "workflow e() { return (not (a == b) and c) or d; }",
        "workflow e ( ) { return not a == b and c or d ; }",
    ),
    (
        "workflow e() { return (not a) == b and (c and (d or e)); }",
        "workflow e ( ) { return ( not a ) == b and ( c and ( d or e ) ) ; }",
    ),
    (
        "workflow e() { return -(1) * -(2 + 3) < (4 / (5 % 6)); }",
        "workflow e ( ) { return - 1 * - ( 2 + 3 ) < 4 / ( 5 % 6 ) ; }",
    ),
    (
        "workflow e() { return text((len(\"a\\n\\\"\\\\\"))); }",
        "workflow e ( ) { return text ( len ( \"a\\n\\\"\\\\\" ) ) ; }",
    ),
    (
        "workflow s() { signal go: text; let a = (now); a = wait signal go; sleep (a + 1) * 2; fail (text(a)); }",
        "workflow s ( ) { signal go : text ; let a = now ; a = wait signal go ; sleep ( a + 1 ) * 2 ; fail text ( a ) ; }",
    ),
    (
        "workflow r(n: int) { activity c() -> int; n = call c() retry 3 every 500; n = call c() retry 1 every 0; n = call c() retry 1 every 5; n = call c() retry 2 every 0; }",
        "workflow r ( n : int ) { activity c ( ) -> int ; n = call c ( ) retry 3 every 500 ; n = call c ( ) ; n = call c ( ) retry 1 every 5 ; n = call c ( ) retry 2 every 0 ; }",
    ),
    (
        "workflow r(n: int) { continue as new(); n = call c(n) retry 9223372036854775807 every 9223372036854775807; continue as new((n), now - 1); }",
        "workflow r ( n : int ) { continue as new ( ) ; n = call c ( n ) retry 9223372036854775807 every 9223372036854775807 ; continue as new ( n , now - 1 ) ; }",
    ),
    (
        "workflow i(n: int) { if n < 1 { } else { } if (n < 2) { n = 1; } if n < 3 { } else { n = 2; } return n; }",
        "workflow i ( n : int ) { if n < 1 { } if n < 2 { n = 1 ; } if n < 3 { } else { n = 2 ; } return n ; }",
    ),
    (
        "workflow w(n: int) { while n > 0 { n = n - 1; while (n == 5) { } } }",
        "workflow w ( n : int ) { while n > 0 { n = n - 1 ; while n == 5 { } } }",
    ),
    (
        "workflow c(n: int) { activity b() -> int; n = call b() else { }; n = call b() retry 2 every 5 else { n = 0; return n; }; n = call b() retry 1 every 0 else { fail \"a\"; }; }",
        "workflow c ( n : int ) { activity b ( ) -> int ; n = call b ( ) else { } ; n = call b ( ) retry 2 every 5 else { n = 0 ; return n ; } ; n = call b ( ) else { fail \"a\" ; } ; }",
    ),
    (
        "workflow s(n: int) { signal go: int; n = wait signal go for (n * 2) else { }; n = wait signal go for 5 else { n = 1; }; }",
        "workflow s ( n : int ) { signal go : int ; n = wait signal go for n * 2 else { } ; n = wait signal go for 5 else { n = 1 ; } ; }",
    ),
    (
        "workflow p() { patch \"one\" { } patch \"two\" { sleep 1; } else { } patch \"a b\" { } else { sleep 2; } }",
        "workflow p ( ) { patch \"one\" { } patch \"two\" { sleep 1 ; } patch \"a b\" { } else { sleep 2 ; } }",
    ),
    (
        "workflow b() { parallel { { } { sleep 1; parallel { { } } } { if now < 1 { } else { return 1; } } } }",
        "workflow b ( ) { parallel { { } { sleep 1 ; parallel { { } } } { if now < 1 { } else { return 1 ; } } } }",
    ),
    // parentheses stand where the grammar needs them
    (
        "workflow o(a: int, b: text) { let x = ((not a) == 1) and (2 < 3) or (1 - (2 - 3) * (-4)); return text(len(((b ++ \"q\\\"\\\\\\n\"))) % 5); }",
        "workflow o ( a : int , b : text ) { let x = ( not a ) == 1 and 2 < 3 or 1 - ( 2 - 3 ) * - 4 ; return text ( len ( b ++ \"q\\\"\\\\\\n\" ) % 5 ) ; }",
    ),
];

// What a program prints as.
fn printed(alloc: Global, text: &str) -> Option<String> {
    let program = parse(alloc, text).ok()?;
    print(alloc, &program).ok()
}

// Whether a program prints so, and what is printed prints as itself.
fn is_printed_as(alloc: Global, text: &str, wanted: &str) -> Option<bool> {
    let once = printed(alloc, text)?;
    let twice = printed(alloc, once.as_str())?;
    Some(once.as_str() == wanted && twice.as_str() == wanted)
}

// The number of the first program that prints otherwise; how many there are where none is such.
fn first_other_print(alloc: Global, rows: &[(&str, &str)]) -> usize {
    for i in 0..rows.len() {
        let (text, wanted) = rows[i];
        if is_printed_as(alloc, text, wanted) != Some(true) {
            return i;
        }
    }
    rows.len()
}

#[test]
fn programs_print_their_tokens(rt: HostRuntime) -> Result<(), Fail> {
    assert!(rt; first_other_print(rt.alloc(), PRINTED) == 17);
    Ok(())
}

const KEEPS: &str =
    "workflow x() { activity f() -> text; let n = \"\"; n = call f(); return n ++ \"a\"; }";

const BREAKS: &str = "workflow x() { y = 1; }";

// The first fault of a text; `None` for a program that keeps the rules.
fn fault_of(alloc: Global, text: &str) -> Option<Option<TextFault>> {
    let text = RawText::new(alloc, text).ok()?;
    match Language.read(alloc, &text).ok()? {
        Ok(_checked) => Some(None),
        Err(fault) => Some(Some(fault)),
    }
}

// Whether a text has this fault.
fn has_fault(alloc: Global, text: &str, code: Code, at: usize) -> bool {
    fault_of(alloc, text) == Some(Some(TextFault { code, at }))
}

#[test]
fn a_text_is_read(rt: HostRuntime) -> Result<(), Fail> {
    assert!(rt; fault_of(rt.alloc(), KEEPS) == Some(None));
    assert!(rt; has_fault(rt.alloc(), "workflow x( { }", Code::Unexpected, 12));
    assert!(rt; has_fault(rt.alloc(), BREAKS, Code::NotVisible, 15));
    Ok(())
}
