//! Texts that give settings, and texts that give none.
use crate::settings::Settings;
use flow_base::fault::Fault;
use std::alloc::Global;
use std::test::Fail;

fn read_as(alloc: Global, text: &str, batch: usize, workers: usize, cache: usize) -> bool {
    match Settings::read(alloc, text) {
        Ok(found) => found.batch() == batch && found.workers() == workers && found.cache() == cache,
        Err(_) => false,
    }
}

#[test]
fn tables_of_whole_numbers_are_read(rt: HostRuntime) -> Result<(), Fail> {
    let alloc = rt.alloc();
    for (text, batch, workers, cache) in [
        ("", 16, 4, 256),
        ("# nothing\n", 16, 4, 256),
        ("workers = 2\n", 16, 2, 256),
        ("batch = 1\nworkers = 1\ncache = 1\n", 1, 1, 1),
        ("cache = 4_096\nworkers = 0x10\nbatch = +64", 64, 16, 4096),
    ] {
        assert!(rt; read_as(alloc, text, batch, workers, cache), "{text}");
    }
    Ok(())
}

#[test]
fn other_texts_are_refused(rt: HostRuntime) -> Result<(), Fail> {
    for text in [
        "batch = 0",
        "batch = 65",
        "workers = 17",
        "cache = 4097",
        "cache = -1",
        "cache = 9223372036854775807",
        "workers = 2.0",
        "workers = \"2\"",
        "batch = [1]",
        "threads = 2",
        "batch.most = 2",
        "workers = 2\nworkers = 2",
        "workers",
        "[workers]",
    ] {
        assert!(rt;
            Settings::read(rt.alloc(), text) == Err(Fault::BadSettings),
            "{text}"
        );
    }
    Ok(())
}

#[test]
fn settings_are_made_within_their_ranges(rt: HostRuntime) -> Result<(), Fail> {
    assert!(rt; Settings::new(64, 16, 4096).is_some());
    assert!(rt; Settings::new(16, 4, 256) == Some(Settings::usual()));
    assert!(rt; Settings::new(0, 4, 256) == None);
    assert!(rt; Settings::new(16, 0, 256) == None);
    assert!(rt; Settings::new(16, 4, 4097) == None);
    Ok(())
}
