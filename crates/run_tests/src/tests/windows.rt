//! Windows of drawn series against a plain slow choice, and a series of too many values.

use crate::tests::fixture::{Outside, ends_with};
use search_run::{Status, Which};
use series_file::FileError;
use std::alloc::Global;
use std::test::Fail;

// A drawn series, the length and the step of its windows, and how many are chosen so far apart.
#[derive(Clone, Copy, Debug)]
struct Case<'a> {
    values: &'a [i16],
    length: usize,
    step: usize,
    apart: u32,
    k: u32,
}

impl Case<'_> {
    // The distance of the window of this number to a query, if there is one.
    fn distance(&self, query: &[i16], number: u32) -> Option<u64> {
        let start = (number as usize).checked_mul(self.step)?;
        let rest = self.values.get(start..)?;
        let window = rest.get(..self.length)?;
        let mut total = 0u64;
        for (value, asked) in window.iter().zip(query.iter()) {
            let difference = u64::from(value.abs_diff(*asked));
            total = total.wrapping_add(difference.wrapping_mul(difference));
        }
        Some(total)
    }

    // The nearest window that is apart from all these, as distance and number.
    fn next(&self, query: &[i16], chosen: &[(u64, u32)]) -> Option<(u64, u32)> {
        let mut best: Option<(u64, u32)> = None;
        for number in 0..100u32 {
            let is_apart = chosen
                .iter()
                .all(|pair| pair.1.abs_diff(number) >= self.apart);
            if let Some(distance) = self.distance(query, number) {
                if is_apart && best.is_none_or(|pair| distance < pair.0) {
                    best = Some((distance, number));
                }
            }
        }
        best
    }

    // The text that is wanted, for the queries that the series itself holds one after another.
    fn text(&self, alloc: Global) -> Result<String, Fail> {
        let mut text = String::new(alloc);
        for (i, query) in self.values.chunks_exact(self.length.max(1)).enumerate() {
            text.push_str(&format!(in alloc; "query {i}\n")?)?;
            let mut chosen = Vec::new(alloc);
            for rank in 1..=self.k {
                let Some((distance, number)) = self.next(query, &chosen) else {
                    break;
                };
                text.push_str(&format!(in alloc; "{rank} {number} {distance}\n")?)?;
                chosen.push((distance, number))?;
            }
        }
        Ok(text)
    }
}

// The bytes of values without a header.
fn raw(alloc: Global, values: &[i16]) -> Result<Vec<u8>, Fail> {
    let mut bytes = Vec::new(alloc);
    for value in values {
        bytes.extend_from_slice(&value.to_le_bytes())?;
    }
    Ok(bytes)
}

#[test]
fn drawn_windows_are_those_of_a_plain_choice(rt: HostRuntime) -> Result<(), Fail> {
    let alloc = rt.alloc();
    let mut state = 7u32;
    let mut values = Vec::new(alloc);
    for _ in 0..27 {
        state = state.wrapping_mul(1664525).wrapping_add(1013904223);
        values.push((state >> 28) as i16)?;
    }
    for length in 1..=9usize {
        let series = &values[..values.len().min(3 * length)];
        let bytes = raw(alloc, series)?;
        for number in 0..100u32 {
            let workers = [1, 2, 5][number as usize % 3];
            let case = Case {
                values: series,
                length,
                step: number as usize % 5 + 1,
                apart: number / 5 % 4 + 1,
                k: number / 20 + 1,
            };
            let text = case.text(alloc)?;
            for form in ["", " --sealed"] {
                let line = format!(in alloc;
                    "windows C C {} --raw {length} --apart {} --k {} --leaf 2 --workers {workers}{form}",
                    case.step, case.apart, case.k
                )?;
                let wanted = (Status::Done, text.as_bytes());
                ends_with(&rt, alloc, &line, &bytes, Outside::sound(64), wanted)?;
            }
        }
    }
    Ok(())
}

#[test]
fn a_series_of_too_many_values(rt: HostRuntime) -> Result<(), Fail> {
    let bytes = vec![in rt.alloc(); 0u8; 33554434]?;
    let outside = Outside::sound(1 << 20);
    let fault = Status::Format(Which::Series, FileError::TooLarge(33554433));
    let wanted = (fault, [].as_slice());
    ends_with(&rt, rt.alloc(), "windows C ones 1", &bytes, outside, wanted)?;
    Ok(())
}
