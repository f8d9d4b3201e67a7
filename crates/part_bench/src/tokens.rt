//! The tokens of each line of a text.
use prism_lex::{Token, TokenKind, next_token};
use std::io;

/// Prints the tokens of each line, up to its end or a byte at which none begins.
pub(crate) fn show_tokens(rt: &HostRuntime, text: &[u8]) -> io::Result<()> {
    for line in text.split(|byte| *byte == b'\n') {
        show_line(rt, line)?;
    }
    Ok(())
}

fn show_line(rt: &HostRuntime, line: &[u8]) -> io::Result<()> {
    let mut from = 0usize;
    for _ in 0..=line.len() {
        match next_token(line, from.min(line.len())) {
            Ok(token) => {
                show_token(rt, token)?;
                if matches!(token.kind, TokenKind::End) {
                    return Ok(());
                }
                from = token.end;
            }
            Err(fault) => {
                let (at, reason) = (fault.at, fault.reason.name());
                return println!(rt; "{at} {reason}");
            }
        }
    }
    Ok(())
}

// Prints what a token is, from where to where it stands, and of a number its digits and its exponent.
fn show_token(rt: &HostRuntime, token: Token) -> io::Result<()> {
    let (at, end) = (token.at, token.end);
    if let TokenKind::Number(number) = token.kind {
        let (digits, exponent) = (number.digits, number.exponent);
        return println!(rt; "{at} {end} number {digits} {exponent}");
    }
    let kind = name_of(token.kind);
    println!(rt; "{at} {end} {kind}")
}

fn name_of(kind: TokenKind) -> &'static str {
    match kind {
        TokenKind::Word(_) => "word",
        TokenKind::Ident => "name",
        TokenKind::Quoted => "quoted",
        TokenKind::Number(_) => "number",
        TokenKind::Symbol(_) => "symbol",
        TokenKind::End => "end",
    }
}
