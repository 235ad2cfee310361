// Sets of keys as they are stored, looked at where they stand: one count byte, then so many texts.
#![tactic(auto)]

ghost use Rattle.std.specs.Prelude.{◌≡◌, drop};
ghost use Rattle.std.specs.Iterator.{YieldsFirstRef, item_count};
ghost use Rattle.state.specs.Maps.{all, contains, starts_with};
ghost use Rattle.state.specs.Records.{named};
ghost use Rattle.sets.specs.Sets.{set_of, keys_left};

// The keys of a set from one on; empty ones where the bytes end before.
#[derive(Clone, Copy)]
pub struct SetKeys<'a> {
    pub rest: &'a [u8],
    pub left: u8,
}

// The keys of the set at a place.
#[tactic(auto, using(crate::proofs::Steps::set_steps))]
pub fn keys<'a>(s: &'a [u8], at: usize) -> SetKeys<'a>
    ensures { keys_left result ≡ set_of (drop at s.now) }
{
    match s.get(at) {
        Some(n) => SetKeys {
            rest: &s[at + 1..],
            left: *n,
        },
        None => SetKeys { rest: &[], left: 0 },
    }
}

impl<'a> Iterator for SetKeys<'a> {
    type Item = &'a [u8];

    ghost next_gives = { YieldsFirstRef keys_left };

    ghost remaining = { item_count keys_left };

    #[tactic(auto, using(crate::proofs::Steps::set_steps))]
    fn next(&mut self) -> Option<&'a [u8]> {
        if self.left == 0 {
            return None;
        }
        let rest = self.rest;
        self.left -= 1;
        self.rest = &rest[fields::after_text(rest, 0)..];
        Some(fields::text_at(rest, 0))
    }
}

// Whether the set at a place has the key.
pub fn set_has(s: &[u8], at: usize, key: &[u8]) -> bool
    ensures { result ≡ contains key.now (set_of (drop at s.now)) }
{
    keys(s, at).any(|k| text::same(key, k))
}

// Whether no key of the set at a place is empty.
pub fn set_named(s: &[u8], at: usize) -> bool
    ensures { result ≡ all named (set_of (drop at s.now)) }
{
    keys(s, at).all(|k| !k.is_empty())
}

// Whether each key of the set at a place begins with the prefix.
pub fn set_begins(s: &[u8], at: usize, prefix: &[u8]) -> bool
    ensures { result ≡ all (λ k. starts_with k prefix.now) (set_of (drop at s.now)) }
{
    keys(s, at).all(|k| text::starts_with(k, prefix))
}
