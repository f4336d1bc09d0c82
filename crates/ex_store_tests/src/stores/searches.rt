// How often a store asks its names where it looks for a file.

use crate::machine::steps::store_of;
use cm_files::Names;
use cm_text::Name;
use ex_store::{FullName, Key, Store};
use std::alloc::{AllocError, Global};

// The image of a store with so many empty files, N0000.T.1 and so on.
fn image_with(alloc: Global, count: u32) -> Result<String, AllocError> {
    let mut image = String::from_str(alloc, "EXEC20 2|D OPERATOR 0|C OPERATOR|")?;
    for i in 0..count {
        write!(image, "F OPERATOR N{i:04}.T.1 U 0 5 - 0||")?;
    }
    image.push_str("E|")?;
    Ok(image)
}

// How often the names are asked for the file with this number; None where there is none.
fn probes_by_number(store: &Store, i: u32) -> Option<u64> {
    if store.directories() != 1 || i >= store.rows(0) {
        return None;
    }
    let mut probes = 0;
    store.file(0, i, &mut probes);
    Some(probes)
}

// The same for a file by its name; None where there is none.
fn probes_by_name(store: &Store, name: &str) -> Option<u64> {
    if name.len() > 39 {
        return None;
    }
    let full = FullName {
        key: Key {
            directory: Name::new("OPERATOR"),
            name: Name::new(name),
            kind: Name::new("T"),
        },
        generation: 1,
    };
    let mut probes = 0;
    store.find(&full, &mut probes)?;
    Some(probes)
}

#[test]
fn a_file_of_4096_is_found_by_number_in_13_probes(rt: HostRuntime) {
    let image = image_with(rt.alloc(), 4_096).expect(&rt, "memory");
    let store = store_of(&rt, image.as_str());
    for i in [0, 1, 2_047, 2_048, 2_049, 4_094, 4_095] {
        let probes = probes_by_number(&store, i).expect(&rt, "a file");
        assert!(rt; probes <= 13, "{i}");
    }
    assert_eq!(rt; probes_by_number(&store, 4_096), None);
}

#[test]
fn a_file_of_4096_is_found_by_name_in_13_probes(rt: HostRuntime) {
    let image = image_with(rt.alloc(), 4_096).expect(&rt, "memory");
    let store = store_of(&rt, image.as_str());
    for name in [
        "N0000", "N0001", "N2047", "N2048", "N2049", "N4094", "N4095",
    ] {
        let probes = probes_by_name(&store, name).expect(&rt, "a file");
        assert!(rt; probes <= 13, "{name}");
    }
    assert_eq!(rt; probes_by_name(&store, "N4096"), None);
}
