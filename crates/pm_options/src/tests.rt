use super::*;
use std::alloc::Global;
use std::test::Fail;

/// The words of a line, the program's name first.
fn words(alloc: Global, line: &str) -> Result<Vec<String>, Fail> {
    let mut words = Vec::new(alloc);
    words.push(String::from_str(alloc, "pmempool")?)?;
    for word in line.split(' ') {
        words.push(String::from_str(alloc, word)?)?;
    }
    Ok(words)
}

/// Options in any order, and with `=`.
#[test]
fn any_order(rt: HostRuntime) -> Result<(), Fail> {
    let line = "create --root 64 --id=7 P --zones 1 --layout demo --lanes=01";
    let words = words(rt.alloc(), line)?;
    match command_of(rt.alloc(), &words) {
        Ok(Command::Create(create)) => {
            assert_eq!(rt; create.pool, "P");
            assert_eq!(rt; create.layout, "demo");
            assert_eq!(rt;
                (create.lanes, create.zones, create.id, create.root),
                (1, 1, 7, 64)
            );
        }
        _ => panic!(rt; "a command"),
    }
    Ok(())
}

/// Requests for help and for the version, which are no fault.
#[test]
fn help(rt: HostRuntime) -> Result<(), Fail> {
    for line in [
        "--help",
        "--version",
        "check --help",
        "recover --help",
        "info --version",
    ] {
        let words = words(rt.alloc(), line)?;
        assert!(rt;
            matches!(command_of(rt.alloc(), &words), Ok(Command::Help(_))),
            "{line}"
        );
    }
    Ok(())
}

/// Faulty lines: no command, an unknown one or option, a word too few or too many, a value left out or out of form, an option twice.
#[test]
fn faulty_lines(rt: HostRuntime) -> Result<(), Fail> {
    for line in [
        "frob",
        "info",
        "info P Q",
        "info P --keep 1",
        "check P --repair",
        "check P --repair A --repair B",
        "create P --lanes 1 --zones 1 --id 7 --layout demo",
        "create P --lanes +1 --zones 1 --id 7 --layout demo --root 64",
        "create P --lanes 18446744073709551616 --zones 1 --id 7 --layout demo --root 64",
        "exec P --script S --out Q --layout demo --stops 0:1,0:2",
        "exec P --script S --out Q --layout demo --stops 0:",
        "exec P --script S --out Q --layout demo --keep x",
        "recover P --stop 3",
        "recover P --out Q --stop x",
    ] {
        let words = words(rt.alloc(), line)?;
        let told = command_of(rt.alloc(), &words);
        assert!(rt; matches!(told, Err(OptionsFault::Usage(_))), "{line}");
    }
    Ok(())
}
