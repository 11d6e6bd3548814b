//! The times of answers.

use crate::bars::add_row;
use crate::html::{Html, Piece};
use fp_counters::{BUCKETS, Histogram};
use std::alloc::AllocError;

/// The bound of a bucket, as an operator reads it.
fn bound_name(bucket: usize) -> &'static str {
    match bucket {
        0 => "50 µs",
        1 => "100 µs",
        2 => "200 µs",
        3 => "500 µs",
        4 => "1 ms",
        5 => "2 ms",
        6 => "5 ms",
        7 => "10 ms",
        8 => "20 ms",
        9 => "50 ms",
        10 => "100 ms",
        11 => "200 ms",
        12 => "500 ms",
        13 => "1 s",
        14 => "2 s",
        15 => "5 s",
        16 => "10 s",
        _ => "20 s",
    }
}

/// The number of times in all buckets.
fn count_of(times: &Histogram) -> u64 {
    let mut count: u64 = 0;
    for bucket in 0..BUCKETS {
        count = count.saturating_add(times.number(bucket));
    }
    count
}

/// The first bucket at whose bound there are at least this many times.
fn bucket_with(times: &Histogram, count: u64) -> usize {
    let mut below: u64 = 0;
    for bucket in 0..BUCKETS {
        below = below.saturating_add(times.number(bucket));
        if below >= count {
            return bucket;
        }
    }
    BUCKETS - 1
}

/// The greatest number of a bucket.
fn highest(times: &Histogram) -> u64 {
    let mut highest = 0;
    for bucket in 0..BUCKETS {
        highest = times.number(bucket).max(highest);
    }
    highest
}

/// A row for each bucket between the first and the last that has a time.
fn add_buckets(html: &mut Html, times: &Histogram, count: u64) -> Result<(), AllocError> {
    let first = bucket_with(times, 1);
    let last = bucket_with(times, count);
    let most = highest(times);
    html.add(&[Piece::Fixed("<table>\n")])?;
    for bucket in 0..BUCKETS {
        if first <= bucket && bucket <= last {
            let bound = bound_name(bucket);
            let name = [Piece::Fixed("up to "), Piece::Fixed(bound)];
            add_row(html, &name, times.number(bucket), most)?;
        }
    }
    html.add(&[Piece::Fixed("</table>\n")])
}

/// The histogram of the times of answers, and the bounds within which half of them and 99 in 100
/// were.
pub(crate) fn add_times(html: &mut Html, times: &Histogram) -> Result<(), AllocError> {
    html.add(&[Piece::Fixed("<section><h2>Time of an answer</h2>\n")])?;
    let count = count_of(times);
    if count == 0 {
        return html.add(&[Piece::Fixed("<p class=\"s\">none measured yet</p></section>\n")]);
    }
    let half = bound_name(bucket_with(times, count - count / 2));
    let most = bound_name(bucket_with(times, count - count / 100));
    html.add(&[
        Piece::Fixed("<p>Half within "),
        Piece::Fixed(half),
        Piece::Fixed(", 99 in 100 within "),
        Piece::Fixed(most),
        Piece::Fixed(". Measured: "),
        Piece::Number(count),
        Piece::Fixed(".</p>\n"),
    ])?;
    add_buckets(html, times, count)?;
    html.add(&[Piece::Fixed("</section>\n")])
}
