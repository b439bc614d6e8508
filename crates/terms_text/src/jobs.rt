// A text read as a job: its modes and its terms, checked.
ghost use Rattle.std.specs.Prelude.{◌≡◌};
ghost use Rattle.entities.specs.Limits.{most_modes, most_terms};
ghost use Rattle.terms_text.specs.Input.{given};
ghost use Rattle.terms_text.specs.Jobs.{request, requested, counted, job_by, job_said};
ghost use Rattle.terms_text.specs.code.JobsRead.{ReadsJob, ReadsJobBy};

use refusal::Refusal;
use terms::checking;
use terms::job::JobSize;
use terms::rules::Rule;

// What a command is asked for: the rule that it names, and the text of its terms.
#[derive(Clone, Copy)]
pub struct Request<'a> {
    pub rule: Rule,
    pub text: &'a [u8],
}

// How many terms the numbers are, or why they are no job's.
fn count_terms(modes: usize, numbers: &[u16]) -> Result<usize, Refusal>
    ensures { result ≡ counted most_modes modes numbers.now }
{
    checking::check_modes(modes)?;
    checking::check_terms(modes, numbers)
}

// The numbers of a text that is well formed, as those of a job by this rule.
fn count_job(rule: Rule, modes: usize, numbers: &[u16]) -> Result<JobSize, Refusal>
    ensures { ReadsJob (job_by most_modes rule (given modes numbers.now)) numbers.now result }
{
    let count = count_terms(modes, numbers)?;
    Ok(JobSize { modes, rule, count })
}

// The size of the job that is asked for, its terms' rows put over the front of the numbers.
pub fn read_job(asks: &Request<'_>, numbers: &mut [u16; 16384]) -> Result<JobSize, Refusal>
    ensures asked { ReadsJob (job_said most_modes most_terms (requested asks.now)) numbers.new result }
    ensures by_any_rule { (rule : Rule) → ReadsJobBy rule (job_said most_modes most_terms (request rule asks.now.text.now)) numbers.new result }
{
    let given = crate::read_input(asks.text, numbers)?;
    let end = 8 * given.count;
    count_job(asks.rule, given.modes, &numbers[..end])
}
