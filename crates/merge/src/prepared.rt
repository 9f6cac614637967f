// A template that is ready for record after record.
ghost use Rattle.std.specs.Prelude.{◌≡◌};
ghost use Rattle.host.specs.Answers.{bytes_of};
ghost use Rattle.template.specs.Judging.{contexts_in, verdict, survey_of};
ghost use Rattle.template.specs.Lexing.{lexed_from};

use host::Host;
use template::checked::Checked;
use template::survey::Survey;

// A checked template with the host that has accepted it, and with what the host makes of it.
#[derive(Drop)]
pub struct Prepared<'a, 't, H: Host> {
    pub checked: Checked<'t>,
    pub survey: Survey,
    pub host: &'a H,
    ghost accepted: { verdict (H.meaning host.now) checked.template.now ≡ survey_of survey },
    ghost holes: { checked.holes ≡ survey.bodies.len },
    ghost contexts: { bytes_of survey.contexts ≡ contexts_in (H.meaning host.now) (lexed_from checked.template.now 0) 0 },
}
