//! The records of a run, replaced as often as they can be.

use fp_hub::Tables;
use fp_records::Table;
use std::alloc::Global;
use std::sync::Wait;
use std::test::Fail;
use tests_peer::talk::RECORDS;

/// A table of the records of the calls.
fn table(alloc: Global) -> Result<Table, Fail> {
    Table::read(alloc, RECORDS.as_bytes()).map_err(|_| Fail::new("no table"))
}

/// Tables replace others up to this index, and the next one is refused. The last stays.
fn reload_up_to<R: Wait>(rt: &R, alloc: Global, tables: &Tables, last: u16) -> Result<(), Fail> {
    for index in 1..=u32::from(last) {
        if tables.reload(rt, table(alloc)?) != Some(index) {
            return Err(Fail::new(format_args!(
                "wanted {last} tables, the table {index} is refused"
            )));
        }
    }
    if tables.reload(rt, table(alloc)?).is_some() {
        return Err(Fail::new(format_args!("wanted no table after {last}, it is taken")));
    }
    tables.free_replaced(rt);
    let index = tables.table(rt)?.index();
    if index != last {
        return Err(Fail::new(format_args!("wanted the table {last} at the end, came {index}")));
    }
    Ok(())
}

/// A run without a tag takes 999 tables that replace others, and refuses the thousandth.
#[test]
fn the_thousandth_reload_is_refused(rt: HostRuntime) -> Result<(), Fail> {
    let alloc = rt.alloc();
    reload_up_to(&rt, alloc, &Tables::new(alloc, table(alloc)?)?, 999)
}

/// A run with a tag takes 65,535.
#[test]
fn with_a_tag_the_65536th_is_refused(rt: HostRuntime) -> Result<(), Fail> {
    let alloc = rt.alloc();
    let tables = Tables::with_last_index(alloc, table(alloc)?, Table::LAST_INDEX)?;
    reload_up_to(&rt, alloc, &tables, 65_535)
}
