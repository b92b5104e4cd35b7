// The arguments that programs are given.
use std::env::{Env, FillError};

// Whether there is an argument i.
pub fn has_arg(rt: &impl Env, i: usize) -> bool {
    let mut text = [0u8; 4096];
    !matches!(rt.arg(i, &mut text), Err(FillError::NotPresent))
}

// Whether there is an argument i and it is this word.
pub fn is_arg(rt: &impl Env, i: usize, word: &[u8]) -> bool {
    let mut text = [0u8; 4096];
    match rt.arg(i, &mut text) {
        Ok(n) => &text[..n] == word,
        Err(_) => false,
    }
}

// Argument i, where it is a decimal number.
pub fn number_arg(rt: &impl Env, i: usize) -> Option<u32> {
    let mut text = [0u8; 4096];
    let n = rt.arg(i, &mut text).ok()?;
    headers::read_decimal(&text[..n], u32::MAX)
}
