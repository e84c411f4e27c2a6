use command_words::{Command, command_in, read_command};
use std::alloc::{AllocError, Global};
use std::test::Fail;

/// These words, as a program has them.
fn words_of(alloc: Global, words: &[&str]) -> Result<Vec<String>, AllocError> {
    let mut of = Vec::new(alloc);
    for word in words {
        of.push(String::from_str(alloc, word)?)?;
    }
    Ok(of)
}

#[test]
fn each_command_is_found_with_the_word_behind_it_and_other_words_are_none(
    rt: HostRuntime,
) -> Result<(), Fail> {
    let cases: [(&[&str], Option<Command>); 20] = [
        (&["controller", "run", "demo"], Some(Command::Run)),
        (&["controller", "resume", "demo"], Some(Command::Resume)),
        (&["controller", "log", "demo"], Some(Command::Log)),
        (&["controller", "graph", "demo"], Some(Command::Graph)),
        (&["controller", "check", "demo"], Some(Command::Check)),
        (&["controller", "gen", "1"], Some(Command::Generate(1))),
        (
            &["controller", "gen", "2000"],
            Some(Command::Generate(2000)),
        ),
        (&["controller", "gen", "0"], None),
        (&["controller", "gen", "2001"], None),
        (&["controller", "gen", "01"], None),
        (&["controller", "gen", "+1"], None),
        (&["controller", "gen", ""], None),
        (&["controller", "gen"], None),
        (&["controller", "gen", "demo"], None),
        (&["controller", "runs", "demo"], None),
        (&["controller", "run"], None),
        (&["controller", "run", ""], None),
        (&["controller", "run", "-demo"], None),
        (&["controller", "run", "demo", "demo"], None),
        (&[], None),
    ];
    for (words, command) in cases {
        let words = words_of(rt.alloc(), words)?;
        let found = command_in(&words);
        assert!(rt; read_command(rt.alloc(), &words)? == found);
        assert_eq!(rt; found.map(|found| found.0), command);
        assert_eq!(rt;
            found.map(|found| found.1),
            command.and(words.last().map(|word| word.as_str()))
        );
    }
    Ok(())
}
