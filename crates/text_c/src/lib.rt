// The functions of `text` for a C or a Rust program to call, as the benchmark in bench/ does. A slice is passed as a pointer
// and a length.
#![tactic(auto)]

ghost use Rattle.std.specs.Prelude.{◌≡◌};
ghost use Rattle.text.specs.Same.{same_of, prefix_of, ends_with_of, sha256_of};
ghost use Rattle.text.specs.Utf8.{utf8};
ghost use Rattle.text.specs.Order.{order_of, steps_of};
ghost use Rattle.text_c.specs.Sign.{sign_of};

use std::cmp::Ordering;

#[unsafe(no_mangle)]
pub extern "C" fn text_is_utf8(s: &[u8]) -> bool
    ensures { result ≡ utf8 s.now }
{
    text::is_utf8(s)
}

#[unsafe(no_mangle)]
pub extern "C" fn text_same(a: &[u8], b: &[u8]) -> bool
    ensures { result ≡ same_of a.now b.now }
{
    text::same(a, b)
}

#[unsafe(no_mangle)]
pub extern "C" fn text_starts_with(s: &[u8], prefix: &[u8]) -> bool
    ensures { result ≡ prefix_of prefix.now s.now }
{
    text::starts_with(s, prefix)
}

#[unsafe(no_mangle)]
pub extern "C" fn text_ends_with_byte(s: &[u8], b: u8) -> bool
    ensures { result ≡ ends_with_of b s.now }
{
    text::ends_with_byte(s, b)
}

#[unsafe(no_mangle)]
pub extern "C" fn text_valid_sha256(s: &[u8]) -> bool
    ensures { result ≡ sha256_of s.now }
{
    text::valid_sha256(s)
}

// 0 where a comes first, 1 where they are equal, 2 where b comes first; and the steps that it took to tell.
#[unsafe(no_mangle)]
pub extern "C" fn text_compare(a: &[u8], b: &[u8], steps: &mut usize) -> u8
    ensures order { result ≡ sign_of (order_of a.now b.now) }
    ensures steps { steps.new ≡ steps_of a.now b.now }
{
    let c = text::compare(a, b);
    *steps = c.steps;
    match c.order {
        Ordering::Less => 0,
        Ordering::Equal => 1,
        Ordering::Greater => 2,
    }
}
