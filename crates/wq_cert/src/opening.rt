//! Opening a text: its limits, which are judged before everything else.
//!
//! The limits are those of "Certificates" in docs/FORMAT.md. Opening looks at each byte of the text once, and takes no
//! memory.

ghost use Rattle.std.specs.Prelude.{◌≡◌, ◌≢◌, Ok, Err, None, IfOk, IfErr, map};
ghost use Rattle.wq_text.specs.Limits.{limit_fault};
ghost use Rattle.wq_cert.specs.Lines.{cert_line};
ghost use Rattle.wq_cert.specs.Texts.{max_certificate, max_certificate_line, text_reading};
ghost use Rattle.wq_cert.specs.declared.fault.CertError.TheVariants.{OutOfMemory};

use crate::fault::CertError;
use crate::limits::{MAX_CERTIFICATE, MAX_CERTIFICATE_LINE};
use crate::view::CertView;
use wq_text::{Text, TextError};

/// Opens a text as its lines that hold a word. The error is `BadCertLine` (40), with line 0 if the text is too long, or
/// else with the first line that is too long.
pub(crate) fn open(text: &[u8]) -> Result<CertView<'_>, CertError>
    ensures lines { IfOk result (λ view. text_reading (λ lines. Ok lines) text.now ≡ Ok (map cert_line view)) }
    ensures fault { IfErr result (λ e. text_reading (λ lines. Ok lines) text.now ≡ Err e) }
    ensures limits { IfOk result (λ view. limit_fault max_certificate max_certificate_line text.now ≡ None) }
    ensures memory { result ≢ Err OutOfMemory }
{
    match Text::new(text, MAX_CERTIFICATE, MAX_CERTIFICATE_LINE) {
        Ok(text) => Ok(CertView::new(text)),
        Err(TextError::TextTooLong) => Err(CertError::BadCertLine { line: 0 }),
        Err(TextError::LineTooLong { line }) => Err(CertError::BadCertLine { line }),
    }
}
