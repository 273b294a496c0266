//! Words, and what they ask for.
use ipg_app_words::{Asked, Memo, Wanted, request};
use std::alloc::{AllocError, Global};

fn words(alloc: Global, texts: &[&str]) -> Result<Vec<String>, AllocError> {
    let mut words = Vec::new(alloc);
    for text in texts {
        words.push(String::from_str(alloc, text)?)?;
    }
    Ok(words)
}

/// The settings of a parse of `g` on `f`.
fn settings(alloc: Global, texts: &[&str]) -> Result<Option<(Memo, u32)>, AllocError> {
    let words = words(alloc, texts)?;
    match request(alloc, &words)? {
        Some(
            Asked::Use {
                grammar: "g",
                task: Wanted::Parse {
                    input: "f",
                    memo,
                    mib,
                },
            },
        ) => Ok(Some((memo, mib))),
        _ => Ok(None),
    }
}

const PARSED: [(&[&str], Memo, u32); 11] = [
    (&["parse", "g", "f"], Memo::On, 512),
    (&["parse", "g", "f", "--memo", "on"], Memo::On, 512),
    (&["parse", "g", "--memo=off", "f"], Memo::Off, 512),
    (&["parse", "--arena", "1", "g", "f"], Memo::On, 1),
    (&["parse", "g", "f", "--arena=4096"], Memo::On, 4096),
    (&["parse", "g", "f", "--arena", "007"], Memo::On, 7),
    (
        &["parse", "--arena", "30", "--memo", "off", "g", "f"],
        Memo::Off,
        30,
    ),
    (&["parse", "--", "g", "f"], Memo::On, 512),
    (&["parse", "--memo", "off", "--", "g", "f"], Memo::Off, 512),
    (&["parse", "g", "--arena", "7", "--", "f"], Memo::On, 7),
    (&["parse", "g", "--", "f"], Memo::On, 512),
];

/// Options stand anywhere before `--`, with a space or `=`.
#[test]
fn reads_settings(rt: HostRuntime) -> anyhow::Result<()> {
    for (texts, memo, mib) in PARSED {
        let got = settings(rt.alloc(), texts)?;
        assert_eq!(rt; got, Some((memo, mib)), "{texts:?}");
    }
    Ok(())
}

const REFUSED: [&[&str]; 51] = [
    &[],
    &["parse"],
    &["parse", "g"],
    &["parse", "g", "f", "f"],
    &["parse", "g", "f", "--memo"],
    &["parse", "g", "f", "--memo", "maybe"],
    &["parse", "g", "f", "--memo", "ON"],
    &["parse", "g", "f", "--memo", "on", "--memo", "on"],
    &["parse", "g", "f", "--memo="],
    &["parse", "g", "f", "--arena", "0"],
    &["parse", "g", "f", "--arena", "00"],
    &["parse", "g", "f", "--arena", "+3"],
    &["parse", "g", "f", "--arena", "4097"],
    &["parse", "g", "f", "--arena", "99999999999999999999"],
    &["parse", "g", "f", "--arena", "x"],
    &["parse", "g", "f", "--arena", "-1"],
    &["parse", "g", "f", "--arena", "3", "--arena", "3"],
    &["parse", "g", "f", "--arena="],
    &["parse", "g", "f", "--mem", "on"],
    &["parse", "g", "f", "-m", "on"],
    &["parse", "--help"],
    &["parse", "g", "f", "-h"],
    &["parse", "g", "f", "--version"],
    &["pars", "g", "f"],
    &["--help"],
    &["help", "parse", "check"],
    &["version", "x"],
    &["explain"],
    &["explain", "g", "f", "x"],
    &["explain", "g", "--memo", "on"],
    &["check"],
    &["check", "g", "f"],
    &["check", "g", "--memo", "on"],
    &["verify", "g"],
    &["table", "g", "f"],
    &["load", "t"],
    &["cover", "g", "f"],
    &["rebuild", "g"],
    &["json", "g"],
    &["view", "g"],
    &["view", "g", "f", "p", "q"],
    &["edit", "g", "f"],
    &["fmt", "g", "f"],
    &["cert", "--help"],
    &["trial"],
    &["trial", "gif"],
    &["trial", "gif", ""],
    &["trial", "gif", "4294967296"],
    &["trial", "gif", "+3"],
    &["trial", "gif", "-3"],
    &["trial", "gif", "3", "--memo", "on"],
];

const TRIALS: [(&str, u32); 6] = [
    ("0", 0),
    ("00", 0),
    ("1", 1),
    ("03", 3),
    ("30", 30),
    ("4294967295", 4294967295),
];

#[test]
fn reads_numbers_of_parts(rt: HostRuntime) -> anyhow::Result<()> {
    for (text, want) in TRIALS {
        let words = words(rt.alloc(), &["trial", "gif", text])?;
        let got = match request(rt.alloc(), &words)? {
            Some(Asked::Trial { kind: "gif", count }) => Some(count),
            _ => None,
        };
        assert_eq!(rt; got, Some(want), "{text}");
    }
    Ok(())
}

/// What a command doesn't take, values out of range, and requests for help.
#[test]
fn refuses_words(rt: HostRuntime) -> anyhow::Result<()> {
    for texts in REFUSED {
        let words = words(rt.alloc(), texts)?;
        assert!(rt; request(rt.alloc(), &words)?.is_none(), "{texts:?}");
    }
    Ok(())
}

/// The other commands, and names that look like nothing.
#[test]
fn reads_names(rt: HostRuntime) -> anyhow::Result<()> {
    let check = words(rt.alloc(), &["check", ""])?;
    let cert = words(rt.alloc(), &["cert", "--", "--help"])?;
    let verify = words(rt.alloc(), &["verify", "a b", "-"])?;
    let fmt = words(rt.alloc(), &["fmt", "=="])?;
    let asked = request(rt.alloc(), &check)?;
    assert!(rt;
        matches!(
            asked,
            Some(Asked::Use {
                grammar: "",
                task: Wanted::Check
            })
        )
    );
    let asked = request(rt.alloc(), &cert)?;
    assert!(rt;
        matches!(
            asked,
            Some(Asked::Use {
                grammar: "--help",
                task: Wanted::Cert
            })
        )
    );
    let asked = request(rt.alloc(), &verify)?;
    assert!(rt;
        matches!(
            asked,
            Some(Asked::Use {
                grammar: "a b",
                task: Wanted::Verify { certificate: "-" }
            })
        )
    );
    let asked = request(rt.alloc(), &fmt)?;
    assert!(rt; matches!(asked, Some(Asked::Fmt { grammar: "==" })));
    Ok(())
}
