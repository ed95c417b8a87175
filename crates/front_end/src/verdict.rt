//! What is due for words and files.

ghost use Rattle.std.specs.Prelude.{◌≡◌, ◌≢◌, IfOk};
ghost use Rattle.jif_tree.specs.Trees.{program_tree};
ghost use Rattle.host_decl.specs.Refusal.{refusal_shape};
ghost use Rattle.front_end.specs.Verdicts as verdicts;

use crate::refusal::{LineCause, Refusal};
use crate::refusal_texts::{line_of, refused_statement, unheld, why_not_labelled};
use host_decl::HostsError;
use jif_lex::LexError;
use jif_parse::ParseError;
use jif_resolve::ResolveError;
use jif_tree::Program;
use js_base::{OutOfMemory, Status};
use label_check::CheckError;
use place_rules::PlaceError;
use principals::Principals;
use std::alloc::Global;

/// What is due for words and files: a refusal, which goes on the error output, or a report with its status, which goes
/// on the output.
#[derive(Drop)]
pub enum Verdict {
    Refuse(Refusal),
    Print { status: Status, text: String },
}

impl Verdict {
    ghost use Rattle.front_end.specs.Verdicts.{verdict_shape};

    /// The words have none of these forms.
    pub fn usage(alloc: Global, forms: &str) -> Result<Verdict, OutOfMemory>
        ensures { IfOk result (λ verdict. verdict_shape verdict ≡ verdicts.usage forms.now) }
    {
        let forms = String::from_str(alloc, forms)?;
        Ok(Verdict::Refuse(Refusal::Usage { forms }))
    }

    /// Nothing is held under the name of a file.
    pub fn no_such_file(alloc: Global, file: &str) -> Result<Verdict, OutOfMemory>
        ensures { IfOk result (λ verdict. verdict_shape verdict ≡ verdicts.no_such_file file.now) }
    {
        let file = String::from_str(alloc, file)?;
        Ok(Verdict::Refuse(Refusal::NoSuchFile { file }))
    }

    /// The files failed at a file.
    pub fn file_fault(alloc: Global, file: &str) -> Result<Verdict, OutOfMemory>
        ensures { IfOk result (λ verdict. verdict_shape verdict ≡ verdicts.file_fault file.now) }
    {
        let file = String::from_str(alloc, file)?;
        Ok(Verdict::Refuse(Refusal::FileFault { file }))
    }

    /// The program has no tokens.
    ///
    /// # Errors
    /// Exactly where it has none because memory ran out, here as in the next three.
    pub fn not_lexed(why: LexError) -> Result<Verdict, OutOfMemory>
        ensures refused { IfOk result (λ verdict. verdict_shape verdict ≡ verdicts.not_lexed why) }
        ensures not_memory { IfOk result (λ verdict. why ≢ LexError.OutOfMemory) }
    {
        match why {
            LexError::OutOfMemory => Err(OutOfMemory),
            _ => Ok(Verdict::Refuse(Refusal::Lex(why))),
        }
    }

    /// The tokens are no program.
    pub fn not_parsed(why: ParseError) -> Result<Verdict, OutOfMemory>
        ensures refused { IfOk result (λ verdict. verdict_shape verdict ≡ verdicts.not_parsed why) }
        ensures not_memory { IfOk result (λ verdict. why ≢ ParseError.OutOfMemory) }
    {
        match why {
            ParseError::OutOfMemory => Err(OutOfMemory),
            _ => Ok(Verdict::Refuse(Refusal::Parse(why))),
        }
    }

    /// A name of the program is refused.
    pub fn not_resolved(why: ResolveError) -> Result<Verdict, OutOfMemory>
        ensures refused { IfOk result (λ verdict. verdict_shape verdict ≡ verdicts.not_resolved why) }
        ensures not_memory { IfOk result (λ verdict. why ≢ ResolveError.OutOfMemory) }
    {
        match why {
            ResolveError::OutOfMemory => Err(OutOfMemory),
            _ => Ok(Verdict::Refuse(Refusal::Resolve(why))),
        }
    }

    /// The labels of the program are refused, whose statements stand on these lines.
    pub fn labels_refused(
        alloc: Global,
        principals: &Principals,
        lines: &[u32],
        why: CheckError,
    ) -> Result<Verdict, OutOfMemory>
        ensures refused { IfOk result (λ verdict.
            verdict_shape verdict ≡ verdicts.labels_refused principals.now lines.now why) }
        ensures not_memory { IfOk result (λ verdict. why ≢ CheckError.OutOfMemory) }
    {
        let words = why_not_labelled(alloc, principals, &why)?;
        let line = line_of(lines, refused_statement(&why).0);
        Ok(Verdict::Refuse(Refusal::Labels { why, line, words }))
    }

    /// The host file is refused.
    ///
    /// # Errors
    /// Exactly where it is refused because memory ran out.
    pub fn hosts_refused(why: HostsError) -> Result<Verdict, OutOfMemory>
        ensures refused { IfOk result (λ verdict.
            verdict_shape verdict ≡ verdicts.hosts_refused (refusal_shape why)) }
        ensures not_memory { IfOk result (λ verdict. why ≢ HostsError.OutOfMemory) }
    {
        if matches!(&why, HostsError::OutOfMemory) {
            return Err(OutOfMemory);
        }
        Ok(Verdict::Refuse(Refusal::Hosts(why)))
    }

    /// No host may hold some part of the program.
    ///
    /// # Errors
    /// Always where it was not found because memory ran out.
    pub fn places_refused(
        alloc: Global,
        program: &Program,
        why: PlaceError,
    ) -> Result<Verdict, OutOfMemory>
        ensures refused { IfOk result (λ verdict.
            verdict_shape verdict ≡ verdicts.places_refused (program_tree program.now) why) }
        ensures not_memory { IfOk result (λ verdict. why ≢ PlaceError.OutOfMemory) }
    {
        let words = unheld(alloc, program, &why)?;
        Ok(Verdict::Refuse(Refusal::Places { why, words }))
    }

    /// A script has too many bytes.
    pub fn too_long(alloc: Global, file: &str) -> Result<Verdict, OutOfMemory>
        ensures { IfOk result (λ verdict. verdict_shape verdict ≡ verdicts.too_long file.now) }
    {
        let file = String::from_str(alloc, file)?;
        Ok(Verdict::Refuse(Refusal::TooLong { file }))
    }

    /// A line of a script, from 1, is refused.
    pub fn at_line(
        alloc: Global,
        file: &str,
        line: u32,
        why: LineCause,
    ) -> Result<Verdict, OutOfMemory>
        ensures { IfOk result (λ verdict. verdict_shape verdict ≡ verdicts.at_line file.now line why) }
    {
        let file = String::from_str(alloc, file)?;
        Ok(Verdict::Refuse(Refusal::AtLine { file, line, why }))
    }

    /// Not the same hosts misbehave in two runs.
    pub fn bad_differ() -> Verdict
        ensures { verdict_shape result ≡ verdicts.bad_differ }
    {
        Verdict::Refuse(Refusal::BadDiffer)
    }

    /// A field of this name starts unlike in two runs.
    pub fn starts_differ(alloc: Global, field: &str) -> Result<Verdict, OutOfMemory>
        ensures { IfOk result (λ verdict. verdict_shape verdict ≡ verdicts.starts_differ field.now) }
    {
        let field = String::from_str(alloc, field)?;
        Ok(Verdict::Refuse(Refusal::StartsDiffer { field }))
    }
}
