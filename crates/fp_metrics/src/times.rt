//! The text of a histogram of times.

ghost use Rattle.std.specs.Prelude.{◌≡◌, ◌++◌, IfOk, OnOk, string_bytes};
ghost use Rattle.fp_metrics.specs.Times.{bound_of, bucket_line, bucket_lines, sum_and_count, times_heading, times_text, total_below};

use fp_counters::{BUCKETS, Histogram};
use std::alloc::{AllocError, Global};

/// The upper bound of a bucket, in seconds.
fn bound_of(bucket: usize) -> &'static str
    ensures { result.now ≡ bound_of bucket }
{
    match bucket {
        0 => "0.00005",
        1 => "0.0001",
        2 => "0.0002",
        3 => "0.0005",
        4 => "0.001",
        5 => "0.002",
        6 => "0.005",
        7 => "0.01",
        8 => "0.02",
        9 => "0.05",
        10 => "0.1",
        11 => "0.2",
        12 => "0.5",
        13 => "1",
        14 => "2",
        15 => "5",
        16 => "10",
        _ => "+Inf",
    }
}

/// The comments before a histogram.
fn times_heading() -> &'static str
    ensures { result.now ≡ times_heading }
{
    "# HELP freephone_scp_answer_seconds From the read of a message to the write of its answer, of a sample.\n# TYPE freephone_scp_answer_seconds histogram\n"
}

/// The line of a bucket: how many times are at most its bound.
fn bucket_line(alloc: Global, bound: &str, count: u64) -> Result<String, AllocError>
    ensures { IfOk result (λ text. string_bytes text ≡ bucket_line bound.now count) }
{
    format!(in alloc; "freephone_scp_answer_seconds_bucket{{le=\"{bound}\"}} {count}\n")
}

/// Adds the line of a bucket.
fn push_bucket(alloc: Global, out: &mut String, bound: &str, count: u64) -> Result<(), AllocError>
    ensures { OnOk result (string_bytes out.new ≡ string_bytes out.old ++ bucket_line bound.now count) }
{
    let line = bucket_line(alloc, bound, count)?;
    out.push_str(line.as_str())?;
    Ok(())
}

/// The lines of the sum and the number of all times.
fn sum_and_count(alloc: Global, sum: u64, count: u64) -> Result<String, AllocError>
    ensures { IfOk result (λ text. string_bytes text ≡ sum_and_count sum count) }
{
    format!(in alloc;
        "freephone_scp_answer_seconds_sum {sum}e-6\nfreephone_scp_answer_seconds_count {count}\n"
    )
}

/// Adds the lines of the buckets, and sets `total` to the number of all times.
fn push_buckets(
    alloc: Global,
    out: &mut String,
    histogram: &Histogram,
    total: &mut u64,
) -> Result<(), AllocError>
    requires { total.old ≡ 0 }
    ensures text { OnOk result (string_bytes out.new ≡ string_bytes out.old ++ bucket_lines histogram.now BUCKETS) }
    ensures total { OnOk result (total.new ≡ total_below histogram.now BUCKETS) }
{
    for bucket in 0..BUCKETS {
        *total = total.saturating_add(histogram.number(bucket));
        push_bucket(alloc, out, bound_of(bucket), *total)?;
    }
    Ok(())
}

/// Adds the text of a histogram of microseconds, in seconds.
pub(crate) fn push_times(
    alloc: Global,
    out: &mut String,
    histogram: &Histogram,
) -> Result<(), AllocError>
    ensures { OnOk result (string_bytes out.new ≡ string_bytes out.old ++ times_text histogram.now) }
{
    out.push_str(times_heading())?;
    let mut total = 0;
    push_buckets(alloc, out, histogram, &mut total)?;
    let lines = sum_and_count(alloc, histogram.sum(), total)?;
    out.push_str(lines.as_str())?;
    Ok(())
}
