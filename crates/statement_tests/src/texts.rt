//! The texts of commits and data files.
use edge_api::Name;
use line_texts::{
    TextFault, are_long_rows, read_add, read_columns, read_rows, write_add, write_columns,
    write_rows,
};
use row_base::{Datum, Rows, Text};
use std::alloc::Global;
use std::test::Fail;

#[test]
fn columns_are_a_line(rt: HostRuntime) -> Result<(), Fail> {
    let mut names = Vec::new(rt.alloc());
    names.push(Text::make(rt.alloc(), "id")?)?;
    names.push(Text::make(rt.alloc(), "v")?)?;
    let text = write_columns(rt.alloc(), names.as_slice())?;
    assert!(rt; text.as_slice() == b"columns id v\n".as_slice());
    let read = read_columns(rt.alloc(), b"columns id v\n").expect(&rt, "it reads");
    assert!(rt; read.as_slice().len() == 2);
    assert!(rt; read.as_slice()[1].as_str() == "v");
    Ok(())
}

#[test]
fn a_path_is_a_line(rt: HostRuntime) -> Result<(), Fail> {
    let path = Name::make(rt.alloc(), "part-00000.parquet")?;
    let text = write_add(rt.alloc(), &path)?;
    assert!(rt; text.as_slice() == b"add part-00000.parquet\n".as_slice());
    let read = read_add(rt.alloc(), b"add part-00000.parquet\n").expect(&rt, "it reads");
    assert!(rt; read.as_str() == "part-00000.parquet");
    Ok(())
}

#[test]
fn a_row_is_a_line(rt: HostRuntime) -> Result<(), Fail> {
    let mut data = Vec::new(rt.alloc());
    data.push(Datum::Long(10))?;
    data.push(Datum::Long(-9223372036854775808))?;
    let mut rows = Rows::new(rt.alloc());
    rows.push_from(&mut data)?;
    assert!(rt; are_long_rows(&rows));
    let text = write_rows(rt.alloc(), &rows)?;
    assert!(rt; text.as_slice() == b"10,-9223372036854775808\n".as_slice());
    let read = read_rows(rt.alloc(), text.as_slice()).expect(&rt, "it reads");
    assert!(rt; read.len() == 1);
    assert!(rt; read.get(0).map(|row| row.len()) == Some(2));
    Ok(())
}

fn bad_row(alloc: Global, text: &[u8]) -> Option<TextFault> {
    read_rows(alloc, text).err()
}

#[test]
fn bad_lines_are_named(rt: HostRuntime) -> Result<(), Fail> {
    let alloc = rt.alloc();
    assert!(rt; bad_row(alloc, b"").is_none());
    assert!(rt; bad_row(alloc, b"1\n02\n") == Some(TextFault::Line(2)));
    assert!(rt; bad_row(alloc, b"1\n-0\n") == Some(TextFault::Line(2)));
    assert!(rt; bad_row(alloc, b"1\n2") == Some(TextFault::Line(2)));
    assert!(rt; bad_row(alloc, b"9223372036854775808\n") == Some(TextFault::Line(1)));
    assert!(rt; read_columns(alloc, b"columns a\nx\n").err() == Some(TextFault::Line(2)));
    assert!(rt; read_add(alloc, b"").err() == Some(TextFault::Line(1)));
    Ok(())
}
