//! Scripts that are generated for a number: many messages over three vats, on a schedule that the number's key chooses.
#![tactic(auto)]

ghost use Rattle.std.specs.Prelude.{◌≡◌, ◌+◌, ◌*◌, ◌%◌, ◌<◌, ◌^◌, ◌++◌, IfOk, OnOk, string_bytes};
ghost use Rattle.rand_chacha.specs.ChaCha.{word_at};
ghost use Rattle.ev_generate.specs.Generated.{drain, entries, entry, generated, generated_key, head, spelled_entry, vats};

use ev_base::Memory;
use rand_chacha::ChaCha20Rng;
use rand_core::SeedableRng;
use rand_core::utils::NextWord;
use std::alloc::Global;
use std::fmt::Write;

/// The key of a number: its four bytes, the lowest first, and zeros.
fn generated_key(n: u32) -> [u8; 32]
    ensures { result ≡ generated_key n }
{
    let [a, b, c, d] = n.to_le_bytes();
    [
        a, b, c, d, 0, 0, 0, 0, 0, 0, 0, 0, 0, 0, 0, 0, 0, 0, 0, 0, 0, 0, 0, 0, 0, 0, 0, 0, 0, 0,
        0, 0,
    ]
}

/// The entry of a choice.
fn entry(chosen: u32) -> &'static str
    ensures { result.now ≡ entry chosen }
{
    match chosen {
        0 => "turn v0",
        1 => "turn v1",
        2 => "turn v2",
        3 => "carry v0 v1",
        4 => "carry v0 v2",
        5 => "carry v1 v0",
        6 => "carry v1 v2",
        7 => "carry v2 v0",
        _ => "carry v2 v1",
    }
}

/// Appends the entry of a choice, with the comma behind it.
fn push_entry(out: &mut String, chosen: u32) -> Result<(), Memory>
    ensures { OnOk result (string_bytes out.new ≡ string_bytes out.old ++ spelled_entry chosen) }
{
    out.push_str("\"")?;
    out.push_str(entry(chosen))?;
    out.push_str("\",")?;
    Ok(())
}

/// What is chosen next.
fn next_choice(stream: &mut ChaCha20Rng) -> u32
    requires place { stream.old.word_pos + 1 < 2 ^ 68 }
    ensures value { result ≡ word_at 10 stream.old.key stream.old.stream stream.old.word_pos % 9 }
    ensures after { stream.new ≡ record stream.old { word_pos = stream.old.word_pos + 1 } }
{
    stream.next_word() % 9
}

/// Appends the chosen entries under a key, so many of them.
fn push_entries(out: &mut String, key: &[u8; 32], n: u32) -> Result<(), Memory>
    ensures { OnOk result (string_bytes out.new ≡ string_bytes out.old ++ entries key.now n) }
{
    let mut stream = ChaCha20Rng::from_seed(*key);
    for place in 0..n {
        let chosen = next_choice(&mut stream);
        push_entry(out, chosen)?;
    }
    Ok(())
}

/// Appends what stands in front of the entries.
fn push_head(alloc: Global, out: &mut String, key: &[u8; 32]) -> Result<(), Memory>
    ensures { OnOk result (string_bytes out.new ≡ string_bytes out.old ++ head key.now) }
{
    let digits = hex::encode(alloc, *key)?;
    out.push_str("{\"key\":\"")?;
    out.push_str(digits.as_str())?;
    out.push_str("\",\"schedule\":[")?;
    Ok(())
}

/// Appends the drain behind the entries.
fn push_drain(out: &mut String, n: u32) -> Result<(), Memory>
    ensures { OnOk result (string_bytes out.new ≡ string_bytes out.old ++ drain n) }
{
    let rounds = 3 * u64::from(n) + 10;
    out.push_str("\"drain ")?;
    write!(out, "{rounds}")?;
    Ok(())
}

/// What stands in front of the count of messages.
const BEFORE_COUNT: &str =
    "\"],\"vats\":[{\"knows\":[\"v1\",\"v2\"],\"name\":\"v0\",\"source\":\"for i in 1..";

/// What stands behind it.
const BEHIND_COUNT: &str =
    " { v1 <- hop(i, v2) }\"},{\"knows\":[],\"name\":\"v1\",\"source\":\"def t { method hop(i, w) { w <- add(i) } }\"},{\"knows\":[],\"name\":\"v2\",\"source\":\"var sum := 0; def t { method add(i) { sum += i } }\"}]}";

/// Appends the vats, and what ends the script.
fn push_vats(out: &mut String, n: u32) -> Result<(), Memory>
    ensures { OnOk result (string_bytes out.new ≡ string_bytes out.old ++ vats n) }
{
    out.push_str(BEFORE_COUNT)?;
    write!(out, "{n}")?;
    out.push_str(BEHIND_COUNT)?;
    Ok(())
}

/// The script that is generated for a number, as one line of JSON without a line end. It refuses for want of memory alone.
pub fn generate(alloc: Global, n: u32) -> Result<String, Memory>
    ensures { IfOk result (λ text. string_bytes text ≡ generated n) }
{
    let key = generated_key(n);
    let mut out = String::new(alloc);
    push_head(alloc, &mut out, &key)?;
    push_entries(&mut out, &key, n)?;
    push_drain(&mut out, n)?;
    push_vats(&mut out, n)?;
    Ok(out)
}
