//! The table that commits leave.
use edge_api::Name;
use row_base::{Items, Text};
use snapshot_replay::State;
use std::test::Fail;

#[test]
fn files_are_live_once_in_byte_order(rt: HostRuntime) -> Result<(), Fail> {
    let alloc = rt.alloc();
    let mut state = State::new(alloc);
    assert!(rt; state.file_count() == 0);
    let column = Text::make(alloc, "id")?;
    state.set_columns(Items::from_vec(vec![in alloc; column]?));
    for path in ["b", "a", "b", "C"] {
        state.add_file(Name::make(alloc, path)?)?;
    }
    assert!(rt; state.file_count() == 3);
    let mut text = String::new(alloc);
    for path in state.paths(alloc)?.iter() {
        text.push_str(path.as_str())?;
    }
    assert!(rt; text.as_str() == "Cab");
    Ok(())
}
