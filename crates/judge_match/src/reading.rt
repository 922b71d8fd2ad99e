// How the words of a table are read: any word, which is asked whether it is there, or words that are known to be there.
#![tactic(auto)]

ghost use Rattle.std.specs.Prelude.{◌≡◌, true, ltb, ◌&&◌, ℕ, List, ◌+◌, ◌/◌, ◌≤◌, take, drop};
ghost use Rattle.paper.specs.Table.{word, is_in};

use paper::Operation;

// A way to read them.
pub trait Reading {
    // the words before a place may be read
    ghost may_read: { List ℕ → ℕ → Type 0 };

    // domain d may be asked for among so many
    ghost may_ask: { ℕ → ℕ → Type 0 };

    // The word at a place.
    fn word(t: &[u16], at: usize) -> u16
        requires { may_read t.now (at + 1) }
        ensures { result ≡ word t.now at };

    // So many words from a place on.
    fn part(t: &[u16], at: usize, n: usize) -> &[u16]
        requires { may_read t.now (at + n) }
        ensures { result.now ≡ take n (drop at t.now) };

    // Domain d is one of so many, and in the set at a place.
    fn holds(t: &[u16], at: usize, domains: usize, d: usize) -> bool
        requires among { may_ask d domains }
        requires there { may_read t.now (at + d / 16 + 1) }
        ensures { result ≡ (ltb d domains && is_in (drop at t.now) d) };

    // Where it says so, the words before a place may be read.
    fn reaches(t: &[u16], end: usize) -> bool
        ensures { result ≡ true → may_read t.now end };

    // A quick pass goes before the whole of an entry, over its uid, the ends of its pattern and its descriptors' domains, unless a way to
    // read says otherwise.
    fn asks_ends() -> bool {
        true
    }

    ghost fewer: { (ws : List ℕ) (m n : ℕ) → m ≤ n → may_read ws n → may_read ws m };
}

// Any word: those past the end are 0.
pub struct Any;

impl Reading for Any {
    ghost may_read = { λ ws n. Unit {0} };

    ghost may_ask = { λ d domains. Unit {0} };

    ghost fewer = { λ ws m n h p. p };

    fn word(t: &[u16], at: usize) -> u16 {
        table::word(t, at)
    }

    fn part(t: &[u16], at: usize, n: usize) -> &[u16] {
        table::part(t, at, n)
    }

    fn holds(t: &[u16], at: usize, domains: usize, d: usize) -> bool {
        d < domains && Operation::contains(table::part(t, at, t.len()), d)
    }

    fn reaches(_t: &[u16], _end: usize) -> bool {
        true
    }

    // Words of which nothing is known are gone over once: a quick pass before that would ask each as the slow one does.
    fn asks_ends() -> bool {
        false
    }
}

#[cfg(test)]
mod tests {
    use super::*;

    // A way to read like `Any`, but that says nothing of the quick pass.
    struct Silent;

    impl Reading for Silent {
        ghost may_read = { λ ws n. Unit {0} };

        ghost may_ask = { λ d domains. Unit {0} };

        ghost fewer = { λ ws m n h p. p };

        fn word(t: &[u16], at: usize) -> u16 {
            Any::word(t, at)
        }

        fn part(t: &[u16], at: usize, n: usize) -> &[u16] {
            Any::part(t, at, n)
        }

        fn holds(t: &[u16], at: usize, domains: usize, d: usize) -> bool {
            Any::holds(t, at, domains, d)
        }

        fn reaches(t: &[u16], end: usize) -> bool {
            Any::reaches(t, end)
        }
    }

    // No clause says these: they tell only what is asked first.
    #[test]
    fn quick_pass_and_reach(rt: HostRuntime) {
        assert!(rt; Silent::asks_ends());
        assert!(rt; !Any::asks_ends());
        assert!(rt; Any::reaches(&[], 1));
    }
}
