//! Texts about the program, made from the table of its commands: completions for shells, and a man page.
ghost use Rattle.std.specs.Prelude.{◌≡◌, codes, option_and_then};
ghost use Rattle.gm_command.specs.Given.{rows_in, text_in};
ghost use Rattle.gm_command.specs.Reading.{manual_named};

use crate::given::text_in;
use crate::lines::lines;
use crate::names::{GAMES, LATER_GAMES, LISTED, LISTED_LATER};
use crate::words::{ArgKind, ArgSpec, CommandSpec};
use clap::ArgMatches;
use std::alloc::{AllocError, Global};

/// A text about the program.
#[derive(Clone, Copy, Debug, PartialEq, Eq)]
pub enum Manual {
    Bash,
    Zsh,
    Fish,
    Man,
}

/// Returns the completions for the shell that a line of `completions` names.
pub fn manual_of(inner: &ArgMatches<'_>) -> Option<Manual>
    ensures { result ≡ option_and_then manual_named (text_in (rows_in inner.now) (codes "SHELL")) }
{
    match text_in(inner, "SHELL")? {
        "bash" => Some(Manual::Bash),
        "zsh" => Some(Manual::Zsh),
        "fish" => Some(Manual::Fish),
        _ => None,
    }
}

/// Writes a text about the program.
pub fn manual_text(alloc: Global, asked: Manual) -> Result<Vec<u8>, AllocError> {
    let mut text = String::new(alloc);
    write_manual(asked, &mut text)?;
    Ok(text.into_bytes())
}

fn write_manual(asked: Manual, text: &mut String) -> Result<(), AllocError> {
    match asked {
        Manual::Bash => write_bash(text),
        Manual::Zsh => write_zsh(text),
        Manual::Fish => write_fish(text),
        Manual::Man => write_man(text),
    }
}

// Returns the name of an option, and `None` for a word that is known by its place.
fn option_of(word: &ArgSpec) -> Option<&'static str> {
    match word.kind {
        ArgKind::Word | ArgKind::Unless { .. } | ArgKind::Optional => None,
        _ => Some(word.name),
    }
}

// Tests whether a word is an option with a value.
fn has_value(word: &ArgSpec) -> bool {
    match word.kind {
        ArgKind::Text { .. } | ArgKind::Number { .. } | ArgKind::Tier => true,
        ArgKind::Word | ArgKind::Unless { .. } | ArgKind::Optional | ArgKind::Flag => false,
    }
}

// Appends some strings, one after another.
fn add(text: &mut String, parts: &[&str]) -> Result<(), AllocError> {
    for part in parts {
        text.push_str(part)?;
    }
    Ok(())
}

// Appends the names of the commands, with a space before each.
fn write_commands(text: &mut String) -> Result<(), AllocError> {
    for line in &lines() {
        add(text, &[" ", line.name])?;
    }
    Ok(())
}

// Appends the words that can follow a command: its options, and the names of the games.
fn write_words(line: &CommandSpec, text: &mut String) -> Result<(), AllocError> {
    for word in line.words {
        match option_of(word) {
            Some(option) => add(text, &[" --", option])?,
            None => write_values(word.name, text)?,
        }
    }
    Ok(())
}

// Appends the values that a word of the command line can have.
fn write_values(place: &str, text: &mut String) -> Result<(), AllocError> {
    match place {
        "GAME" => {
            for (name, _) in GAMES.iter().chain(LATER_GAMES.iter()) {
                add(text, &[" ", name])?;
            }
            Ok(())
        }
        "SHELL" => text.push_str(" bash zsh fish"),
        _ => Ok(()),
    }
}

// Appends the options that have a value, with `|` before each.
fn write_valued(text: &mut String) -> Result<(), AllocError> {
    for line in &lines() {
        for word in line.words {
            if has_value(word) {
                add(text, &["|--", word.name])?;
            }
        }
    }
    Ok(())
}

// Appends the name of a command and its alias, with `|` between them.
fn write_names(line: &CommandSpec, text: &mut String) -> Result<(), AllocError> {
    text.push_str(line.name)?;
    match line.alias {
        Some(alias) => add(text, &["|", alias]),
        None => Ok(()),
    }
}

// Appends the words of each command, with a string before its name, one before its words and one after them.
fn write_cases(
    start: &'static str,
    before: &'static str,
    after: &'static str,
    text: &mut String,
) -> Result<(), AllocError> {
    for line in &lines() {
        text.push_str(start)?;
        write_names(line, text)?;
        text.push_str(before)?;
        write_words(line, text)?;
        text.push_str(after)?;
    }
    Ok(())
}

fn write_bash(text: &mut String) -> Result<(), AllocError> {
    text.push_str(
        "_gamesman() {\n    local cur=${COMP_WORDS[COMP_CWORD]} words= first=1\n    [ \"$COMP_CWORD\" -gt 1 ] && [ \"${COMP_WORDS[1]}\" = --explain ] && first=2\n    case \"${COMP_WORDS[COMP_CWORD-1]}\" in\n",
    )?;
    text.push_str(
        "        --value)\n            COMPREPLY=($(compgen -W \"win tie draw lose\" -- \"$cur\"))\n            return\n            ;;\n",
    )?;
    text.push_str("        --folder")?;
    write_valued(text)?;
    text.push_str(
        ")\n            COMPREPLY=()\n            return\n            ;;\n    esac\n    if [ \"$COMP_CWORD\" -eq $first ]; then\n        words=\"",
    )?;
    write_commands(text)?;
    text.push_str(
        "\"\n        [ $first -eq 1 ] && words=\"$words --explain\"\n    else\n        case \"${COMP_WORDS[first]}\" in\n",
    )?;
    write_cases("        ", ") words=\"", "\" ;;\n", text)?;
    text.push_str(
        "        esac\n    fi\n    COMPREPLY=($(compgen -W \"$words\" -- \"$cur\"))\n}\ncomplete -o default -F _gamesman gamesman\n",
    )
}

fn write_zsh(text: &mut String) -> Result<(), AllocError> {
    text.push_str(
        "#compdef gamesman\n_gamesman() {\n    local first=2\n    (( CURRENT > 2 )) && [[ ${words[2]} == --explain ]] && first=3\n    case ${words[CURRENT-1]} in\n    --value) compadd -- win tie draw lose; return ;;\n    --folder",
    )?;
    write_valued(text)?;
    text.push_str(
        ") _files; return ;;\n    esac\n    if (( CURRENT == first )); then\n        (( first == 2 )) && compadd -- --explain\n        compadd --",
    )?;
    write_commands(text)?;
    text.push_str("\n        return\n    fi\n    case ${words[first]} in\n")?;
    write_cases("    ", ") compadd --", " ;;\n", text)?;
    text.push_str(
        "    esac\n    _files\n}\nif [[ ${funcstack[1]} == _gamesman ]]; then\n    _gamesman \"$@\"\nelse\n    compdef _gamesman gamesman\nfi\n",
    )
}

fn write_fish(text: &mut String) -> Result<(), AllocError> {
    text.push_str(
        "complete -c gamesman -n __fish_use_subcommand -l explain -d 'Explain a refusal in a pipe too'\n",
    )?;
    for line in &lines() {
        write_fish_command(line, text)?;
    }
    Ok(())
}

fn write_fish_command(line: &CommandSpec, text: &mut String) -> Result<(), AllocError> {
    add(
        text,
        &[
            "complete -c gamesman -n __fish_use_subcommand -a ",
            line.name,
            " -d '",
            line.about,
            "'\n",
        ],
    )?;
    for word in line.words {
        write_fish_word(line.name, word, text)?;
    }
    Ok(())
}

// Appends an option, or the values that a word of the command line can have.
fn write_fish_word(
    name: &'static str,
    word: &ArgSpec,
    text: &mut String,
) -> Result<(), AllocError> {
    add(
        text,
        &[
            "complete -c gamesman -n '__fish_seen_subcommand_from ",
            name,
            "'",
        ],
    )?;
    match option_of(word) {
        Some("value") => add(
            text,
            &[" -l value -x -a 'win tie draw lose' -d '", word.help, "'\n"],
        ),
        Some(option) if has_value(word) => {
            add(text, &[" -l ", option, " -r -d '", word.help, "'\n"])
        }
        Some(option) => add(text, &[" -l ", option, " -d '", word.help, "'\n"]),
        None => {
            text.push_str(" -a '")?;
            write_values(word.name, text)?;
            text.push_str("'\n")
        }
    }
}

fn write_man(text: &mut String) -> Result<(), AllocError> {
    text.push_str(
        ".TH GAMESMAN 1\n.SH NAME\ngamesman \\- solves two\\-player games\n.SH SYNOPSIS\n.B gamesman\n[\\-\\-explain]\n.I COMMAND\n[\\fIWORD\\fR ...]\n.SH COMMANDS\n",
    )?;
    for line in &lines() {
        write_man_command(line, text)?;
    }
    add(text, &[".SH GAMES\n", LISTED, LISTED_LATER])?;
    text.push_str(
        ".SH OPTIONS\n.TP\n.B \\-\\-explain\nBefore the command: explain a refusal in a pipe too, as a terminal does.\n",
    )?;
    text.push_str(
        ".SH ENVIRONMENT\n.TP\n.B GAMESMAN_EXPLAIN\n1 is the same as \\-\\-explain for every command.\n",
    )?;
    text.push_str(
        ".SH EXIT STATUS\n0 where what was asked was done, 1 where it was refused, 2 for a line that is none.\n",
    )
}

fn write_man_command(line: &CommandSpec, text: &mut String) -> Result<(), AllocError> {
    add(text, &[".SS ", line.name, "\n", line.about, ".\n"])?;
    for word in line.words {
        write_man_word(word, text)?;
    }
    Ok(())
}

fn write_man_word(word: &ArgSpec, text: &mut String) -> Result<(), AllocError> {
    let (before, name) = match option_of(word) {
        Some(option) => (".TP\n.B \\-\\-", option),
        None => (".TP\n.I ", word.name),
    };
    add(text, &[before, name, "\n", word.help, ".\n"])
}
