//! Lines that depend on the numbers of rounds.

use crate::cases::numbers::Numbers;
use crate::cases::writing::Out;

/// In which round a line is: the number of the lines' round, and that of the line's own.
#[derive(Clone, Copy)]
pub struct Round {
    pub n: u32,
    pub m: u32,
}

/// Writes the text, with what stands in brackets written out.
///
/// `{..}` is a number: `{n}`, `{m+1}`, `{9-n}`, `{n*256+m}`, or `{~n}`, which is scattered over all
/// numbers below 2^32, each `n` to another one. `[0..3 {n}v1]` is `0v1 1v1 2v1`: there `n` has each
/// of the numbers.
pub fn fill(out: &mut Out, text: &str, round: Round) {
    for part in text.split('[') {
        match part.split_once(']') {
            Some((list, after)) => {
                fill_list(out, list, round);
                fill_words(out, after, round);
            }
            None => fill_words(out, part, round),
        }
    }
}

fn fill_list(out: &mut Out, list: &str, round: Round) {
    let (range, words) = list.split_once(' ').unwrap_or((list, ""));
    let Some(numbers) = Numbers::read(range) else {
        return out.word("no numbers");
    };
    for at in 0..numbers.count {
        if at > 0 {
            out.word(" ");
        }
        let n = numbers.at(at);
        fill_words(out, words, Round { n, ..round });
    }
}

fn fill_words(out: &mut Out, text: &str, round: Round) {
    for part in text.split('{') {
        match part.split_once('}') {
            Some((sum, after)) => {
                out.show(&number_of(sum, round));
                out.word(after);
            }
            None => out.word(part),
        }
    }
}

fn number_of(sum: &str, round: Round) -> i64 {
    match sum.strip_prefix('~') {
        // The factor is odd, so no two numbers become the same.
        Some(sum) => {
            let number = u32::try_from(sum_of(sum, round)).unwrap_or(0);
            i64::from(number.wrapping_mul(2_654_435_769))
        }
        None => sum_of(sum, round),
    }
}

fn sum_of(sum: &str, round: Round) -> i64 {
    if let Some((left, right)) = sum.split_once('+') {
        product_of(left, round).wrapping_add(product_of(right, round))
    } else if let Some((left, right)) = sum.split_once('-') {
        product_of(left, round).wrapping_sub(product_of(right, round))
    } else {
        product_of(sum, round)
    }
}

fn product_of(product: &str, round: Round) -> i64 {
    match product.split_once('*') {
        Some((left, right)) => term_of(left, round).wrapping_mul(term_of(right, round)),
        None => term_of(product, round),
    }
}

fn term_of(term: &str, round: Round) -> i64 {
    match term {
        "n" => i64::from(round.n),
        "m" => i64::from(round.m),
        _ => match term.parse::<u32>() {
            Ok(number) => i64::from(number),
            Err(_) => -1,
        },
    }
}
