//! A log of SARIF.

ghost use Rattle.std.specs.Prelude.{◌≡◌, ◌++◌, ◌∷◌, [], IfOk, Some, false, map, position};
ghost use Rattle.std.specs.Prelude.{string_bytes};
ghost use Rattle.serde_json.specs.Data.{array};
ghost use Rattle.serde_json.specs.Read.{read};
ghost use Rattle.serde_json.specs.View.{items_of, view};
ghost use Rattle.serde_json.specs.Written.{compact_text};
ghost use Rattle.report_sarif.specs.Log.{artifact_data, change_data, content_data, driver_data};
ghost use Rattle.report_sarif.specs.Log.{fingerprints_data, fix_data, fixes_data, fixes_of};
ghost use Rattle.report_sarif.specs.Log.{flow_data, flows_data, has_id, help_data, inserted};
ghost use Rattle.report_sarif.specs.Log.{invocation_data, kind_word, level_data, level_word};
ghost use Rattle.report_sarif.specs.Log.{lines_data, location_data, locations_data, log_data};
ghost use Rattle.report_sarif.specs.Log.{message_at, message_data, physical_data, region_data};
ghost use Rattle.report_sarif.specs.Log.{replacement_data, result_data, result_under, rule_data};
ghost use Rattle.report_sarif.specs.Log.{run_data, start_of, step_data, steps_flows};
ghost use Rattle.report_sarif.specs.Log.{thread_data, tool_data};
ghost use Rattle.report_sarif.specs.Message.{markdown_of};

use crate::building::{ArrayBuilder, ObjectBuilder};
use crate::message::{Form, message_of};
use crate::uri::uri_of;
use mend_edits::LineEdit;
use model::items::Items;
use serde_json::Value;
use std::alloc::{AllocError, Global};

/// Whether something is wrong.
#[derive(Clone, Copy)]
pub enum Kind {
    Fail,
    Pass,
}

impl Kind {
    /// Its word.
    fn as_str(self) -> &'static str
        ensures { result.now ≡ kind_word self }
    {
        match self {
            Kind::Fail => "fail",
            Kind::Pass => "pass",
        }
    }

    /// How bad it is.
    fn level(self) -> &'static str
        ensures { result.now ≡ level_word self }
    {
        match self {
            Kind::Fail => "error",
            Kind::Pass => "none",
        }
    }
}

/// What can be told of a file, in words: a rule, a kind of fault, or that nothing is wrong.
#[derive(Drop)]
pub struct RuleText {
    /// Under which it is found.
    pub id: String,
    pub name: String,
    pub page: String,
    pub kind: Kind,
}

/// A part of a line of a text: the number of the line, and the columns in it, in units of UTF-16,
/// all from 1. The end isn't counted in.
#[derive(Clone, Copy)]
pub struct Region {
    pub line: u64,
    pub start: u64,
    pub end: u64,
}

/// A place in a text: the number of a line, and a column in it, in units of UTF-16, from 1.
#[derive(Clone, Copy)]
pub struct Place {
    pub line: u64,
    pub column: u64,
}

/// A step of a path: a position of the routine, where its instruction stands, and in words what is
/// known where the path arrives there.
#[derive(Drop)]
pub struct Step {
    pub position: u16,
    pub region: Option<Region>,
    pub known: String,
}

/// What is wrong with the file of a name, or that nothing is.
#[derive(Drop)]
pub struct Finding {
    pub file: String,
    pub kind: Kind,
    /// The rule that is broken, or the kind of fault.
    pub rule: String,
    pub message: String,
    /// Where; an image has no lines.
    pub region: Option<Region>,
    /// The path there, and the other one of two: none where they are empty.
    pub path: Vec<Step>,
    pub other: Vec<Step>,
    /// How the text is mended, one edit after another: not, where there are none.
    pub fix: Items<LineEdit>,
    /// Where the text ends that is mended: a column further is none of it, nor is a line.
    pub end: Place,
    /// What is the same of two of them that are one, wherever their lines were moved.
    pub fingerprint: String,
}

/// The log of what was found in files, or not, by these rules.
///
/// # Errors
///
/// When memory runs out.
pub fn log(alloc: Global, rules: &[RuleText], findings: &[Finding]) -> Result<String, AllocError>
    ensures text { IfOk result
        (λ log. string_bytes log ≡ compact_text (log_data rules.now findings.now)) }
    ensures reads_back { IfOk result
        (λ log. read (string_bytes log) ≡ Some (log_data rules.now findings.now)) }
{
    let value = log_value(alloc, rules, findings)?;
    value.to_string(alloc)
}

/// The value of the log.
fn log_value(alloc: Global, rules: &[RuleText], findings: &[Finding]) -> Result<Value, AllocError>
    ensures { IfOk result (λ value. view value ≡ log_data rules.now findings.now) }
{
    let run = run_value(alloc, rules, findings)?;
    let mut log = ObjectBuilder::new(alloc);
    log.put_text("version", "2.1.0");
    log.put("runs", only(alloc, run));
    log.put_text("$schema", "https://json.schemastore.org/sarif-2.1.0.json");
    log.finish()
}

/// A list of one value.
fn only(alloc: Global, value: Value) -> Result<Value, AllocError>
    ensures { IfOk result (λ list. view list ≡ array (items_of (view value ∷ []))) }
{
    let mut list = ArrayBuilder::new(alloc);
    list.push(Ok(value));
    list.finish()
}

/// The run.
fn run_value(alloc: Global, rules: &[RuleText], findings: &[Finding]) -> Result<Value, AllocError>
    ensures { IfOk result (λ value. view value ≡ run_data rules.now findings.now) }
{
    let mut run = ObjectBuilder::new(alloc);
    run.put("tool", tool_value(alloc, rules));
    run.put("results", results_value(alloc, rules, findings));
    run.put("invocations", invocations_value(alloc));
    run.put_text("columnKind", "utf16CodeUnits");
    run.finish()
}

/// That the program ran to its end (3.20): what it couldn't read is among its results.
fn invocations_value(alloc: Global) -> Result<Value, AllocError>
    ensures { IfOk result (λ value. view value ≡ array (items_of (invocation_data ∷ []))) }
{
    let mut invocation = ObjectBuilder::new(alloc);
    invocation.put("executionSuccessful", Ok(Value::Bool(true)));
    let invocation = invocation.finish()?;
    only(alloc, invocation)
}

/// The tool.
fn tool_value(alloc: Global, rules: &[RuleText]) -> Result<Value, AllocError>
    ensures { IfOk result (λ value. view value ≡ tool_data rules.now) }
{
    let mut tool = ObjectBuilder::new(alloc);
    tool.put("driver", driver_value(alloc, rules));
    tool.finish()
}

/// The program's version.
pub const VERSION: &str = "1.0.0";

/// Where the program's documents stand, as its package puts them.
pub const DOCUMENTS: &str = "file:///usr/share/doc/pafteis/README.md";

/// The program that it is, with its rules.
fn driver_value(alloc: Global, rules: &[RuleText]) -> Result<Value, AllocError>
    ensures { IfOk result (λ value. view value ≡ driver_data rules.now) }
{
    let mut driver = ObjectBuilder::new(alloc);
    driver.put_text("version", VERSION);
    driver.put("rules", rules_value(alloc, rules));
    driver.put_text("name", "drvhost");
    driver.put_text("informationUri", DOCUMENTS);
    driver.finish()
}

/// The rules.
fn rules_value(alloc: Global, rules: &[RuleText]) -> Result<Value, AllocError>
    ensures { IfOk result (λ value. view value ≡ array (items_of (map rule_data rules.now))) }
{
    let mut list = ArrayBuilder::new(alloc);
    for words in rules {
        list.push(rule_value(alloc, words));
    }
    list.finish()
}

/// A rule.
fn rule_value(alloc: Global, words: &RuleText) -> Result<Value, AllocError>
    ensures { IfOk result (λ value. view value ≡ rule_data words.now) }
{
    let mut rule = ObjectBuilder::new(alloc);
    rule.put(
        "shortDescription",
        message_value(alloc, words.name.as_str()),
    );
    rule.put_text("name", words.name.as_str());
    rule.put_text("id", words.id.as_str());
    rule.put("help", help_value(alloc, words.page.as_str()));
    rule.put("fullDescription", message_value(alloc, words.page.as_str()));
    rule.put("defaultConfiguration", level_value(alloc, words.kind));
    rule.finish()
}

/// How bad a rule's results are.
fn level_value(alloc: Global, kind: Kind) -> Result<Value, AllocError>
    ensures { IfOk result (λ value. view value ≡ level_data kind) }
{
    let mut configuration = ObjectBuilder::new(alloc);
    configuration.put_text("level", kind.level());
    configuration.finish()
}

/// A page, in plain text and in Markdown.
fn help_value(alloc: Global, page: &str) -> Result<Value, AllocError>
    ensures { IfOk result (λ value. view value ≡ help_data page.now) }
{
    let text = message_of(alloc, Form::Plain, page)?;
    let markdown = markdown_of(alloc, page)?;
    let mut help = ObjectBuilder::new(alloc);
    help.put("text", Ok(Value::String(text)));
    help.put("markdown", Ok(Value::String(markdown)));
    help.finish()
}

/// A page in Markdown.
fn markdown_of(alloc: Global, page: &str) -> Result<String, AllocError>
    ensures { IfOk result (λ markdown. string_bytes markdown ≡ markdown_of page.now) }
{
    let lines = message_of(alloc, Form::Markdown, page)?;
    let mut markdown = String::from_str(alloc, "```text\n")?;
    markdown.push_str(lines.as_str())?;
    markdown.push_str("\n```\n")?;
    Ok(markdown)
}

/// A message that shows a text.
fn message_value(alloc: Global, text: &str) -> Result<Value, AllocError>
    ensures { IfOk result (λ value. view value ≡ message_data text.now) }
{
    let shown = message_of(alloc, Form::Plain, text)?;
    let mut message = ObjectBuilder::new(alloc);
    message.put("text", Ok(Value::String(shown)));
    message.finish()
}

/// The results.
fn results_value(
    alloc: Global,
    rules: &[RuleText],
    findings: &[Finding],
) -> Result<Value, AllocError>
    ensures { IfOk result
        (λ value. view value ≡ array (items_of (map (result_data rules.now) findings.now))) }
{
    let mut list = ArrayBuilder::new(alloc);
    for finding in findings {
        list.push(result_value(alloc, rules, finding));
    }
    list.finish()
}

/// A result.
fn result_value(alloc: Global, rules: &[RuleText], finding: &Finding) -> Result<Value, AllocError>
    ensures { IfOk result (λ value. view value ≡ result_data rules.now finding.now) }
{
    result_under(alloc, place_of(rules, finding.rule.as_str()), finding)
}

/// The place of the first rule with this id.
fn place_of(rules: &[RuleText], id: &str) -> Option<usize>
    ensures { result ≡ position (has_id id.now) rules.now }
{
    rules.iter().position(|words| has_id(id, words))
}

/// Whether a rule has this id.
fn has_id(id: &str, words: &RuleText) -> bool
    ensures { result ≡ has_id id.now words.now }
{
    words.id.as_bytes() == id.as_bytes()
}

/// A result, under the rule of a place.
fn result_under(alloc: Global, place: Option<usize>, finding: &Finding) -> Result<Value, AllocError>
    ensures { IfOk result (λ value. view value ≡ result_under place finding.now) }
{
    let mut told = ObjectBuilder::new(alloc);
    told.put_text("ruleId", finding.rule.as_str());
    told.put("partialFingerprints", fingerprints_value(alloc, finding));
    told.put("message", message_value(alloc, finding.message.as_str()));
    told.put("locations", locations_value(alloc, finding));
    told.put_text("level", finding.kind.level());
    told.put_text("kind", finding.kind.as_str());
    told.put("fixes", fixes_value(alloc, finding));
    told.put("codeFlows", flows_value(alloc, finding));
    let Some(place) = place else {
        return told.finish();
    };
    told.put_number("ruleIndex", place as u64);
    told.finish()
}

/// Where what is wrong is.
fn locations_value(alloc: Global, finding: &Finding) -> Result<Value, AllocError>
    ensures { IfOk result (λ value. view value ≡ locations_data finding.now) }
{
    let location = location_value(alloc, finding.file.as_str(), finding.region)?;
    only(alloc, location)
}

/// A place.
fn location_value(alloc: Global, file: &str, region: Option<Region>) -> Result<Value, AllocError>
    ensures { IfOk result (λ value. view value ≡ location_data file.now region) }
{
    let mut location = ObjectBuilder::new(alloc);
    location.put("physicalLocation", physical_value(alloc, file, region));
    location.finish()
}

/// What is equal in two results that are the same.
fn fingerprints_value(alloc: Global, finding: &Finding) -> Result<Value, AllocError>
    ensures { IfOk result
        (λ value. view value ≡ fingerprints_data (string_bytes finding.now.fingerprint)) }
{
    let mut fingerprints = ObjectBuilder::new(alloc);
    fingerprints.put_text("pafteis/v1", finding.fingerprint.as_str());
    fingerprints.finish()
}

/// The paths to what is wrong.
fn flows_value(alloc: Global, finding: &Finding) -> Result<Value, AllocError>
    ensures { IfOk result (λ value. view value ≡ array (items_of (flows_data finding.now))) }
{
    let mut list = ArrayBuilder::new(alloc);
    add_flow(
        alloc,
        &mut list,
        finding.file.as_str(),
        finding.path.as_slice(),
    );
    add_flow(
        alloc,
        &mut list,
        finding.file.as_str(),
        finding.other.as_slice(),
    );
    list.finish()
}

/// Adds a path, if there is one.
fn add_flow(alloc: Global, list: &mut ArrayBuilder, file: &str, steps: &[Step])
    ensures { list.new.lacks ≡ false → (list.old.lacks ≡ false)
        × (map view list.new.values.items
        ≡ map view list.old.values.items ++ steps_flows file.now steps.now) }
{
    if !steps.is_empty() {
        list.push(flow_value(alloc, file, steps));
    }
}

/// A path, as that of one thread.
fn flow_value(alloc: Global, file: &str, steps: &[Step]) -> Result<Value, AllocError>
    ensures { IfOk result (λ value. view value ≡ flow_data file.now steps.now) }
{
    let thread = thread_value(alloc, file, steps)?;
    let mut flow = ObjectBuilder::new(alloc);
    flow.put("threadFlows", only(alloc, thread));
    flow.finish()
}

/// The steps of a thread.
fn thread_value(alloc: Global, file: &str, steps: &[Step]) -> Result<Value, AllocError>
    ensures { IfOk result (λ value. view value ≡ thread_data file.now steps.now) }
{
    let mut thread = ObjectBuilder::new(alloc);
    thread.put("locations", steps_value(alloc, file, steps));
    thread.finish()
}

/// The steps of a path.
fn steps_value(alloc: Global, file: &str, steps: &[Step]) -> Result<Value, AllocError>
    ensures { IfOk result
        (λ value. view value ≡ array (items_of (map (step_data file.now) steps.now))) }
{
    let mut list = ArrayBuilder::new(alloc);
    for step in steps {
        list.push(step_value(alloc, file, step));
    }
    list.finish()
}

/// A step of a path.
fn step_value(alloc: Global, file: &str, step: &Step) -> Result<Value, AllocError>
    ensures { IfOk result (λ value. view value ≡ step_data file.now step.now) }
{
    let told = message_at(alloc, step)?;
    let mut location = ObjectBuilder::new(alloc);
    location.put("physicalLocation", physical_value(alloc, file, step.region));
    location.put("message", message_value(alloc, told.as_str()));
    let mut place = ObjectBuilder::new(alloc);
    place.put("location", location.finish());
    place.finish()
}

/// What is known at a step, with its position.
fn message_at(alloc: Global, step: &Step) -> Result<String, AllocError>
    ensures { IfOk result (λ text. string_bytes text ≡ message_at step.now) }
{
    let Step {
        position,
        known,
        ..
    } = step;
    format!(in alloc; "at {position}: {known}")
}

/// How the file is mended.
fn fixes_value(alloc: Global, finding: &Finding) -> Result<Value, AllocError>
    ensures { IfOk result (λ value. view value ≡ array (items_of (fixes_data finding.now))) }
{
    let mut list = ArrayBuilder::new(alloc);
    add_fix(
        alloc,
        &mut list,
        finding.file.as_str(),
        finding.end,
        finding.fix.as_slice(),
    );
    list.finish()
}

/// Adds edits of lines of a file, if there are any.
fn add_fix(alloc: Global, list: &mut ArrayBuilder, file: &str, end: Place, edits: &[LineEdit])
    ensures { list.new.lacks ≡ false → (list.old.lacks ≡ false)
        × (map view list.new.values.items
        ≡ map view list.old.values.items ++ fixes_of file.now end edits.now) }
{
    if !edits.is_empty() {
        list.push(fix_value(alloc, file, end, edits));
    }
}

/// Edits of lines of a file, as one fix.
fn fix_value(alloc: Global, file: &str, end: Place, edits: &[LineEdit]) -> Result<Value, AllocError>
    ensures { IfOk result (λ value. view value ≡ fix_data file.now end edits.now) }
{
    let change = change_value(alloc, file, end, edits)?;
    let mut fix = ObjectBuilder::new(alloc);
    fix.put("artifactChanges", only(alloc, change));
    fix.finish()
}

/// Edits of lines of a file, with its name.
fn change_value(
    alloc: Global,
    file: &str,
    end: Place,
    edits: &[LineEdit],
) -> Result<Value, AllocError>
    ensures { IfOk result (λ value. view value ≡ change_data file.now end edits.now) }
{
    let mut change = ObjectBuilder::new(alloc);
    change.put("replacements", replacements_value(alloc, end, edits));
    change.put("artifactLocation", artifact_value(alloc, file));
    change.finish()
}

/// Edits of lines of a text that ends at a place.
fn replacements_value(alloc: Global, end: Place, edits: &[LineEdit]) -> Result<Value, AllocError>
    ensures { IfOk result
        (λ value. view value ≡ array (items_of (map (replacement_data end) edits.now))) }
{
    let mut list = ArrayBuilder::new(alloc);
    for edit in edits {
        list.push(replacement_value(alloc, end, edit));
    }
    list.finish()
}

/// Lines that are replaced, and what stands there instead.
fn replacement_value(alloc: Global, end: Place, edit: &LineEdit) -> Result<Value, AllocError>
    ensures { IfOk result (λ value. view value ≡ replacement_data end edit.now) }
{
    let mut replacement = ObjectBuilder::new(alloc);
    replacement.put("insertedContent", content_value(alloc, end, edit));
    replacement.put("deletedRegion", lines_value(alloc, end, edit));
    replacement.finish()
}

/// What stands in place of lines (3.3): the text itself, for it is no message.
fn content_value(alloc: Global, end: Place, edit: &LineEdit) -> Result<Value, AllocError>
    ensures { IfOk result (λ value. view value ≡ content_data (inserted end edit.now)) }
{
    let text = inserted(alloc, end, edit)?;
    let mut content = ObjectBuilder::new(alloc);
    content.put("text", Ok(Value::String(text)));
    content.finish()
}

/// What an edit puts in: behind the last line of a text, which has no line feed, one is put first.
fn inserted(alloc: Global, end: Place, edit: &LineEdit) -> Result<String, AllocError>
    ensures { IfOk result (λ text. string_bytes text ≡ inserted end edit.now) }
{
    let LineEdit { text, .. } = edit;
    if end.line < edit.start {
        return format!(in alloc; "\n{text}");
    }
    String::from_str(alloc, text.as_str())
}

/// Lines that are replaced.
fn lines_value(alloc: Global, end: Place, edit: &LineEdit) -> Result<Value, AllocError>
    ensures { IfOk result (λ value. view value ≡ lines_data end edit.now) }
{
    let first = start_of(end, edit.start);
    let behind = start_of(end, edit.end);
    let mut lines = ObjectBuilder::new(alloc);
    lines.put_number("startLine", first.line);
    lines.put_number("startColumn", first.column);
    lines.put_number("endLine", behind.line);
    lines.put_number("endColumn", behind.column);
    lines.finish()
}

/// Where a line begins, of a text that ends at a place: there, if it ends before that line.
fn start_of(end: Place, line: u64) -> Place
    ensures { result ≡ start_of end line }
{
    if end.line < line {
        return end;
    }
    Place { line, column: 1 }
}

/// Where a result is.
fn physical_value(alloc: Global, file: &str, region: Option<Region>) -> Result<Value, AllocError>
    ensures { IfOk result (λ value. view value ≡ physical_data file.now region) }
{
    let mut physical = ObjectBuilder::new(alloc);
    physical.put("artifactLocation", artifact_value(alloc, file));
    let Some(region) = region else {
        return physical.finish();
    };
    physical.put("region", region_value(alloc, region));
    physical.finish()
}

/// A file, by its name.
fn artifact_value(alloc: Global, file: &str) -> Result<Value, AllocError>
    ensures { IfOk result (λ value. view value ≡ artifact_data file.now) }
{
    let uri = uri_of(alloc, file)?;
    let mut artifact = ObjectBuilder::new(alloc);
    artifact.put("uri", Ok(Value::String(uri)));
    artifact.finish()
}

/// A region of a text.
fn region_value(alloc: Global, region: Region) -> Result<Value, AllocError>
    ensures { IfOk result (λ value. view value ≡ region_data region) }
{
    let mut place = ObjectBuilder::new(alloc);
    place.put_number("startLine", region.line);
    place.put_number("startColumn", region.start);
    place.put_number("endLine", region.line);
    place.put_number("endColumn", region.end);
    place.finish()
}
