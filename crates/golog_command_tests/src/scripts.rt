// Tests of `scripts_of` and `script_text`.
ghost use Rattle.std.specs.Prelude.{All, IfOk};
ghost use Rattle.golog_script.specs.ScriptTexts.{HasTexts};

use crate::asserting::same;
use golog_base::{Bytes, List, NoMemory, Word, both};
use golog_script::{Script, ScriptFault, script_text, scripts_of};
use std::alloc::Global;

/// Names of a letter each, as many as there are letters.
fn names(alloc: Global, letters: &[u8]) -> Result<List<Word>, NoMemory> {
    let mut names = List::new(alloc);
    for letter in letters {
        if let Some(name) = Word::of(&[*letter]) {
            names.push(name)?;
        }
    }
    Ok(names)
}

/// The scripts for the devices `a` to `p`.
fn scripts(alloc: Global, text: &[u8]) -> Result<List<Script>, ScriptFault>
    ensures { IfOk result (All HasTexts) }
{
    let names = names(alloc, b"abcdefghijklmnop")?;
    let scripts = scripts_of(alloc, text, &names);
    drop(names);
    scripts
}

/// Puts items behind a text, each behind a space.
fn push_items(texts: &mut Bytes, items: &[Bytes]) -> Result<(), NoMemory> {
    for item in items {
        texts.push(b' ')?;
        texts.extend(item.as_slice())?;
    }
    Ok(())
}

/// Puts a script behind a text, in a line: its name, its answers, a bar, its idle items.
fn push_script(texts: &mut Bytes, script: &Script) -> Result<(), NoMemory> {
    texts.extend(script.name.as_bytes())?;
    push_items(texts, script.answers.as_slice())?;
    texts.push(b'|')?;
    push_items(texts, script.idle.as_slice())?;
    texts.push(b'\n')
}

/// Each script in such a line.
fn lines_of(alloc: Global, scripts: &[Script]) -> Result<Bytes, NoMemory> {
    let mut texts = Bytes::new(alloc);
    for script in scripts {
        push_script(&mut texts, script)?;
    }
    Ok(texts)
}

/// Whether the scripts of a file have these lines, and these texts.
fn are_written(
    alloc: Global,
    file: &[u8],
    lines: &[u8],
    texts: &[u8],
) -> Result<[bool; 2], ScriptFault> {
    let scripts = scripts(alloc, file)?;
    let written = both(
        lines_of(alloc, scripts.as_slice()),
        texts_in(alloc, scripts.as_slice()),
    );
    drop(scripts);
    let (have_lines, have_texts) = written?;
    Ok([
        have_lines.as_slice() == lines,
        have_texts.as_slice() == texts,
    ])
}

/// The text of a script in a line behind others.
fn push_text(alloc: Global, texts: &mut Bytes, script: &Script) -> Result<(), NoMemory>
    requires { HasTexts script.now }
{
    let text = script_text(alloc, script)?;
    texts.extend(text.as_slice())?;
    texts.push(b'\n')
}

/// The texts of the scripts, each in a line.
fn texts_in(alloc: Global, scripts: &[Script]) -> Result<Bytes, NoMemory>
    requires { All HasTexts scripts.now }
{
    let mut texts = Bytes::new(alloc);
    for script in scripts {
        push_text(alloc, &mut texts, script)?;
    }
    Ok(texts)
}

// Each file with its scripts in lines, and with their texts.
#[test]
fn scripts_are_read_and_written(rt: HostRuntime) -> Result<(), ScriptFault> {
    let files: [(&[u8], &[u8], &[u8]); 2] = [
        (
            b"[{\"idle\":[\"push(3)\",\"r\\u0065st\"],\"name\":\"c\",\"note\":1},{\"name\":\"a\",\"answers\":[\"true\"]}]",
            b"c| push(3) rest\na true|\n",
            b"{\"answers\":[],\"idle\":[\"push(3)\",\"rest\"]}\n{\"answers\":[\"true\"],\"idle\":[]}\n",
        ),
        (
            b"[{\"name\":\"b\",\"idle\":[\"push(1)\",\"rest\"],\"answers\":[\"a\\\"\"]}, {\"name\":\"a\"}]",
            b"b a\"| push(1) rest\na|\n",
            b"{\"answers\":[\"a\\\"\"],\"idle\":[\"push(1)\",\"rest\"]}\n{\"answers\":[],\"idle\":[]}\n",
        ),
    ];
    for (file, lines, texts) in files {
        same(
            &rt,
            file,
            are_written(rt.alloc(), file, lines, texts)?,
            [true; 2],
        );
    }
    Ok(())
}
