//! What can be told of a file, in words: the rules with their pages, the kinds of faults, and that
//! a set is accepted.

ghost use Rattle.std.specs.Prelude.{◌≡◌, IfOk, map, string_bytes};
ghost use Rattle.answer_logs.specs.Log.{IsLogOf, all_entries, entry_of, fault_entry, pass_entry};
ghost use Rattle.answer_logs.specs.Log.{rule_entry};

use crate::copying::Copier;
use crate::finding::{ACCEPTED, words_of};
use model::abs::Rule;
use report_sarif::log::{Finding, Kind, RuleText, log};
use std::alloc::{AllocError, Global};
use verifier_names::{RULES, rule_words};

/// All kinds of faults: of a text, of an image, and of a file that can't be read.
const KINDS: [&str; 12] = [
    "Lex",
    "UnknownWord",
    "DuplicateName",
    "UnknownName",
    "OutOfRange",
    "Unclosed",
    "OverLimit",
    "Magic",
    "Truncated",
    "Trailing",
    "BadOpcode",
    "Unreadable",
];

/// The line of the log of these results.
pub(crate) fn log_of(alloc: Global, findings: &[Finding]) -> Result<String, AllocError>
    ensures { IfOk result (λ log. IsLogOf findings.now (string_bytes log)) }
{
    let texts = texts(alloc)?;
    let mut log = log(alloc, texts.as_slice(), findings)?;
    log.push('\n')?;
    Ok(log)
}

/// All that can be told, in words.
fn texts(alloc: Global) -> Result<Vec<RuleText>, AllocError>
    ensures { IfOk result (λ texts. map entry_of texts.items ≡ all_entries) }
{
    let mut texts = rule_texts(alloc, &RULES)?;
    let mut kinds = kind_texts(alloc, &KINDS)?;
    texts.append(&mut kinds)?;
    texts.push(pass_text(alloc)?)?;
    Ok(texts)
}

/// Rules, each with its page.
fn rule_texts(alloc: Global, rules: &[Rule]) -> Result<Vec<RuleText>, AllocError>
    ensures { IfOk result (λ texts. map entry_of texts.items ≡ map rule_entry rules.now) }
{
    let mut texts = Vec::new(alloc);
    for rule in rules {
        texts.push(rule_text(alloc, *rule)?)?;
    }
    Ok(texts)
}

/// A rule, with its page.
fn rule_text(alloc: Global, rule: Rule) -> Result<RuleText, AllocError>
    ensures { IfOk result (λ text. entry_of text ≡ rule_entry rule) }
{
    let (word, name) = words_of(rule);
    let mut texts = Copier::new(alloc);
    let text = RuleText {
        id: texts.copy(word),
        name: texts.copy(name),
        page: texts.made(rule_words(alloc, rule)),
        kind: Kind::Fail,
    };
    texts.finish(text)
}

/// Kinds of faults.
fn kind_texts(alloc: Global, kinds: &[&str]) -> Result<Vec<RuleText>, AllocError>
    ensures { IfOk result (λ texts.
        map entry_of texts.items ≡ map (λ kind. fault_entry kind.now) kinds.now) }
{
    let mut texts = Vec::new(alloc);
    for kind in kinds {
        texts.push(kind_text(alloc, *kind)?)?;
    }
    Ok(texts)
}

/// A kind of fault.
fn kind_text(alloc: Global, kind: &str) -> Result<RuleText, AllocError>
    ensures { IfOk result (λ text. entry_of text ≡ fault_entry kind.now) }
{
    let mut texts = Copier::new(alloc);
    let text = RuleText {
        id: texts.copy(kind),
        name: texts.copy(kind),
        page: texts.made(format!(in alloc; "the file is faulty: {kind}")),
        kind: Kind::Fail,
    };
    texts.finish(text)
}

/// That a set is accepted.
fn pass_text(alloc: Global) -> Result<RuleText, AllocError>
    ensures { IfOk result (λ text. entry_of text ≡ pass_entry) }
{
    let mut texts = Copier::new(alloc);
    let text = RuleText {
        id: texts.copy(ACCEPTED),
        name: texts.copy(ACCEPTED),
        page: texts.copy("The set breaks none of the rules."),
        kind: Kind::Pass,
    };
    texts.finish(text)
}
