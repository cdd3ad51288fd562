// What the arguments say: the rate, and the form of the recording.
use std::rt::Env;

#[derive(Clone, Copy)]
pub enum Form {
    Raw,
    Floats,
    Records,
}

// Digits of the largest rate, and more than any rate.
const MOST_DIGITS: usize = 6;

// The decimal number of a text of up to six digits.
fn number_of(text: &[u8]) -> Option<u32> {
    if text.is_empty() || MOST_DIGITS < text.len() {
        return None;
    }
    let mut n: u32 = 0;
    for c in text {
        if !c.is_ascii_digit() {
            return None;
        }
        n = n.saturating_mul(10).saturating_add(u32::from(*c - b'0'));
    }
    Some(n)
}

fn form_of(text: &[u8]) -> Option<Form> {
    match text {
        b"raw" => Some(Form::Raw),
        b"f32" => Some(Form::Floats),
        b"records" => Some(Form::Records),
        _ => None,
    }
}

// The rate that the first argument names.
pub fn given_rate(rt: &impl Env) -> Option<u32> {
    let mut text = [0u8; 64];
    let n = command_line::arg(rt, 1, &mut text);
    number_of(&text[..n])
}

// The form that the second argument names.
pub fn given_form(rt: &impl Env) -> Option<Form> {
    let mut text = [0u8; 64];
    let n = command_line::arg(rt, 2, &mut text);
    form_of(&text[..n])
}
