//! A script's lines, and what one of them says.
ghost use Rattle.std.specs.Prelude.{◌≡◌, ℕ, ◌<◌, ◌≤◌, ◌∷◌, ◌++◌, List, length, codes, decimal, IsTrue, ◌↔◌, ◌==◌, IfSome, IfNone, position};
ghost use Rattle.std.specs.List.{list_all};
ghost use Rattle.dk_types.specs.declared.limits.TheConstants.{MOMENT_MOST_MS};
ghost use Rattle.dk_model.specs.Lines.{first_word, after_word};
ghost use Rattle.dk_model.specs.Scripts.{IsLineName, IsText, Says, is_name_byte, is_text_byte, is_passed_over};
ghost use Rattle.dk_model.specs.Scripts as script;
ghost use Rattle.dk_script.specs.Reading.{IsBehind, IsCut, IsNamed, said_by};

use crate::moment::moment_of;
use dk_model::limits::{NAME_MOST_BYTES, TEXT_MOST_BYTES};

/// What a line of a script says.
#[derive(Clone, Copy)]
pub(crate) enum Spoken<'a> {
    /// Nothing: the line is empty or a comment.
    PassedOver,
    Login {
        name: &'a [u8],
    },
    Send {
        name: &'a [u8],
        text: &'a [u8],
    },
    Channel {
        name: &'a [u8],
        channel: &'a [u8],
        text: &'a [u8],
    },
    Logout {
        name: &'a [u8],
    },
    Drop {
        name: &'a [u8],
    },
    Tick {
        moment: u64,
    },
    /// The end of the phase.
    Sync,
}

impl<'a> Spoken<'a> {
    /// What the line says, or nothing where it is no line of a script.
    pub(crate) fn of(line: &'a [u8]) -> Option<Spoken<'a>>
        ensures found { IfSome result (λ spoken. Says line.now (said_by spoken)) }
        ensures none { IfNone result ((said : script.Spoken) → Says line.now said → ⊥) }
    {
        if is_passed_over(line) {
            return Some(Spoken::PassedOver);
        }
        if line == b"sync".as_slice() {
            return Some(Spoken::Sync);
        }
        if let Some(name) = named(line, b"login ".as_slice()) {
            return Some(Spoken::Login { name });
        }
        if let Some(name) = named(line, b"logout ".as_slice()) {
            return Some(Spoken::Logout { name });
        }
        if let Some(name) = named(line, b"drop ".as_slice()) {
            return Some(Spoken::Drop { name });
        }
        if let Some((name, text)) = sent(line) {
            return Some(Spoken::Send { name, text });
        }
        if let Some((name, channel, text)) = sent_on(line) {
            return Some(Spoken::Channel {
                name,
                channel,
                text,
            });
        }
        let moment = ticked(line)?;
        Some(Spoken::Tick { moment })
    }
}

/// The first line, and what follows it.
pub(crate) fn cut_line(bytes: &[u8]) -> (&[u8], &[u8])
    requires { 0 < length bytes.now }
    ensures cut { IsCut bytes.now result.0.now result.1.now }
{
    match place_of(bytes, b'\n') {
        None => (bytes, &bytes[bytes.len()..]),
        Some(at) => (&bytes[..at], &bytes[at + 1..]),
    }
}

fn is_passed_over(line: &[u8]) -> bool
    ensures { result ≡ is_passed_over line.now }
{
    match line.first() {
        None => true,
        Some(b) => *b == b'#',
    }
}

/// What stands behind a word at the front of the line.
fn behind<'a>(line: &'a [u8], word: &[u8]) -> Option<&'a [u8]>
    ensures found { IfSome result (λ rest. IsBehind word.now line.now rest.now) }
    ensures none { IfNone result ((rest : List ℕ) → line.now ≡ word.now ++ rest → ⊥) }
{
    line.strip_prefix(word)
}

/// The name of a line that is a word and a name.
fn named<'a>(line: &'a [u8], word: &[u8]) -> Option<&'a [u8]>
    ensures found { IfSome result (λ name. (line.now ≡ word.now ++ name.now) × IsLineName name.now) }
    ensures none { IfNone result ((name : List ℕ) → line.now ≡ word.now ++ name → IsLineName name → ⊥) }
{
    let name = behind(line, word)?;
    if is_line_name(name) { Some(name) } else { None }
}

/// The name and the text of a line `send NAME TEXT`.
fn sent(line: &[u8]) -> Option<(&[u8], &[u8])>
    ensures found { IfSome result (λ parts. (line.now ≡ codes "send " ++ (parts.0.now ++ 32 ∷ parts.1.now)) × IsLineName parts.0.now × IsText parts.1.now) }
    ensures none { IfNone result ((name text : List ℕ) → line.now ≡ codes "send " ++ (name ++ 32 ∷ text) → IsLineName name → IsText text → ⊥) }
{
    let (name, text) = name_and_rest(behind(line, b"send ".as_slice())?)?;
    if is_text(text) {
        Some((name, text))
    } else {
        None
    }
}

/// The name, the channel and the text of a line `channel NAME CHANNEL TEXT`.
fn sent_on(line: &[u8]) -> Option<(&[u8], &[u8], &[u8])>
    ensures found { IfSome result (λ parts. (line.now ≡ codes "channel " ++ (parts.0.now ++ 32 ∷ (parts.1.now ++ 32 ∷ parts.2.now))) × IsLineName parts.0.now × IsLineName parts.1.now × IsText parts.2.now) }
    ensures none { IfNone result ((name channel text : List ℕ) → line.now ≡ codes "channel " ++ (name ++ 32 ∷ (channel ++ 32 ∷ text)) → IsLineName name → IsLineName channel → IsText text → ⊥) }
{
    let (name, rest) = name_and_rest(behind(line, b"channel ".as_slice())?)?;
    let (channel, text) = name_and_rest(rest)?;
    if is_text(text) {
        Some((name, channel, text))
    } else {
        None
    }
}

/// The moment of a line `tick M`.
fn ticked(line: &[u8]) -> Option<u64>
    ensures found { IfSome result (λ moment. (line.now ≡ codes "tick " ++ decimal moment) × (moment ≤ MOMENT_MOST_MS)) }
    ensures none { IfNone result ((moment : ℕ) → line.now ≡ codes "tick " ++ decimal moment → moment ≤ MOMENT_MOST_MS → ⊥) }
{
    moment_of(behind(line, b"tick ".as_slice())?)
}

/// A name and what stands behind the space after it.
fn name_and_rest(bytes: &[u8]) -> Option<(&[u8], &[u8])>
    ensures found { IfSome result (λ parts. IsNamed bytes.now parts.0.now parts.1.now) }
    ensures none { IfNone result ((name rest : List ℕ) → bytes.now ≡ name ++ 32 ∷ rest → IsLineName name → ⊥) }
{
    let (name, rest) = cut_word(bytes)?;
    if is_line_name(name) {
        Some((name, rest))
    } else {
        None
    }
}

/// What stands before the first space, and what stands behind it.
fn cut_word(bytes: &[u8]) -> Option<(&[u8], &[u8])>
    ensures found { IfSome result (λ parts. (bytes.now ≡ parts.0.now ++ 32 ∷ parts.1.now) × (parts.0.now ≡ first_word bytes.now) × (parts.1.now ≡ after_word bytes.now)) }
    ensures none { IfNone result ((word rest : List ℕ) → bytes.now ≡ word ++ 32 ∷ rest → ⊥) }
{
    let at = place_of(bytes, b' ')?;
    Some((&bytes[..at], &bytes[at + 1..]))
}

/// Where the byte first stands.
fn place_of(bytes: &[u8], byte: u8) -> Option<usize>
    ensures { result ≡ position (λ b. b == byte) bytes.now }
{
    bytes.iter().position(|b| *b == byte)
}

fn is_line_name(name: &[u8]) -> bool
    ensures { IsTrue result ↔ IsLineName name.now }
{
    !name.is_empty() && name.len() as u64 <= NAME_MOST_BYTES && are_name_bytes(name)
}

fn are_name_bytes(bytes: &[u8]) -> bool
    ensures { result ≡ list_all is_name_byte bytes.now }
{
    bytes.iter().all(|b| *b >= 0x21 && *b <= 0x7E)
}

fn is_text(text: &[u8]) -> bool
    ensures { IsTrue result ↔ IsText text.now }
{
    text.len() as u64 <= TEXT_MOST_BYTES && are_text_bytes(text)
}

fn are_text_bytes(bytes: &[u8]) -> bool
    ensures { result ≡ list_all is_text_byte bytes.now }
{
    bytes.iter().all(|b| *b >= 0x20 && *b <= 0x7E)
}
