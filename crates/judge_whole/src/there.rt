// Words that the table has, read without asking for them, and domains that are listed.
#![tactic(auto)]

ghost use Rattle.std.specs.Prelude.{◌<◌, ◌≤◌, length};
ghost use Rattle.judge_whole.specs.Whole.{fewer_there};

use judge_match::reading::Reading;
use paper::Operation;

pub struct There;

impl Reading for There {
    ghost may_read = { λ ws n. n ≤ length ws };

    ghost may_ask = { λ d domains. d < domains };

    ghost fewer = { fewer_there };

    fn word(t: &[u16], at: usize) -> u16 {
        t[at]
    }

    fn part(t: &[u16], at: usize, n: usize) -> &[u16] {
        &t[at..at + n]
    }

    fn holds(t: &[u16], at: usize, _domains: usize, d: usize) -> bool {
        let word_at = at + d / 16;
        Operation::contains(&t[word_at..word_at + 1], d % 16)
    }

    fn reaches(t: &[u16], end: usize) -> bool {
        end <= t.len()
    }

    fn asks_ends() -> bool {
        true
    }
}
