use std::alloc::Global;
use std::test::Fail;
use tw_text::{Column, table_text};
use tw_world::Memory;

const COLUMNS: [Column; 3] = [
    Column {
        heading: "ID",
        is_right: true,
    },
    Column {
        heading: "Name",
        is_right: false,
    },
    Column {
        heading: "Note",
        is_right: false,
    },
];

// Rows, and their table. Two ideographs take four columns, a letter with a combining accent takes one. A row may be shorter than the
// others, or have no cells.
const TABLES: [(&[&[&str]], &str); 2] = [
    (
        &[
            &["1", "\u{65e5}\u{672c}", "x"],
            &["10", "e\u{301}", ""],
            &["", "abcde", "longer than its heading"],
            &["123", "short row"],
            &[],
        ],
        " ID Name      Note\n  1 \u{65e5}\u{672c}      x\n 10 e\u{301}         \n    abcde     longer than its heading\n123 short row\n\n",
    ),
    (
        &[&["1", "\u{65e5}\u{672c}", "x"], &["2", "abcde", ""]],
        "ID Name  Note\n 1 \u{65e5}\u{672c}  x\n 2 abcde \n",
    ),
];

fn row_of(alloc: Global, cells: &[&str]) -> Result<Vec<String>, Memory> {
    let mut row = Vec::new(alloc);
    for cell in cells {
        row.push(String::from_str(alloc, cell)?)?;
    }
    Ok(row)
}

fn is_table(alloc: Global, cells: &[&[&str]], want: &str) -> Result<bool, Fail> {
    let mut rows = Vec::new(alloc);
    for row in cells {
        rows.push(row_of(alloc, row)?)?;
    }
    Ok(table_text(alloc, &COLUMNS, &rows)?.as_slice() == want.as_bytes())
}

// How many of the tables are as wanted, up to the first that is not.
fn tables_so_far(alloc: Global) -> Result<usize, Fail> {
    for (number, (cells, want)) in TABLES.iter().enumerate() {
        if !is_table(alloc, cells, want)? {
            return Ok(number);
        }
    }
    Ok(TABLES.len())
}

#[test]
fn a_column_is_as_wide_as_its_widest_cell(rt: HostRuntime) -> Result<(), Fail> {
    assert_eq!(rt; tables_so_far(rt.alloc())?, TABLES.len());
    Ok(())
}
