//! The results as tables.
use crate::failure::Failure;
use crate::sheet::{Row, Sheet};
use crate::workload::Workload;

/// Writes the keys of a kind to standard output, each on a line of hexadecimal digits: the stored
/// keys, the keys that look-ups find, and the missing keys.
pub(crate) fn write_keys(rt: &HostRuntime, workload: &Workload<Vec<u8>>) -> Result<(), Failure> {
    println!(rt; "{} {}", workload.kind.name(), workload.keys.len())?;
    write_lines(rt, &workload.keys)?;
    write_lines(rt, &workload.hits)?;
    write_lines(rt, &workload.misses)
}

/// Writes each key on a line.
fn write_lines(rt: &HostRuntime, keys: &[Vec<u8>]) -> Result<(), Failure> {
    for key in keys {
        println!(rt; "{}", hex::encode(rt.alloc(), key.as_slice())?)?;
    }
    Ok(())
}

/// Writes the rows for `keys` keys of a kind: the sums to standard output, and the times to
/// standard error.
pub(crate) fn write_sheet(
    rt: &HostRuntime,
    name: &str,
    keys: usize,
    sheet: &Sheet,
) -> Result<(), Failure> {
    sheet.ended()?;
    println!(rt; "{name} {keys}")?;
    write_sums(rt, &sheet.rows)?;
    eprintln!(rt; "{name}, {keys} keys: nanoseconds, and the ratio to the toolchain's BTreeMap")?;
    write_times(rt, &sheet.rows)
}

/// Writes the sums, which are the same on each run.
fn write_sums(rt: &HostRuntime, rows: &[Row]) -> Result<(), Failure> {
    for row in rows {
        println!(rt; "{} {} {}", row.call, row.count, row.sum)?;
    }
    Ok(())
}

/// Writes the times of each row.
fn write_times(rt: &HostRuntime, rows: &[Row]) -> Result<(), Failure> {
    for row in rows {
        write_time(rt, row)?;
    }
    Ok(())
}

/// Writes the nanoseconds for each key or pair, and the ratio. If it is below 1, the map is faster
/// than the library's.
fn write_time(rt: &HostRuntime, row: &Row) -> Result<(), Failure> {
    let count = (row.count as u64).max(1);
    let (ours, theirs) = (row.ours / count, row.theirs / count);
    let hundredths = row.ours.saturating_mul(100) / row.theirs.max(1);
    let (whole, rest) = (hundredths / 100, hundredths % 100);
    eprintln!(rt;
        "{:>20} {ours:>8} {theirs:>8} {whole:>5}.{rest:02}",
        row.call
    )?;
    Ok(())
}
