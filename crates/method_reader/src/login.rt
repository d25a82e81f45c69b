// The login string of connection.start-ok: RFC 4616. A NUL, the user up to the next NUL, the password.
ghost use Rattle.std.specs.Prelude.{◌≡◌, ◌==◌, suc, ◌-◌, ◌≤◌, length};
ghost use Rattle.tables.specs.Letters.{errata};
ghost use Rattle.method.specs.Fields.{login};
ghost use Rattle.method.specs.Reading.{arg_at};
ghost use Rattle.std.specs.List.{position_from};
ghost use Rattle.method.specs.Kinds.Login.{login_utf8};
ghost use Rattle.method_reader.specs.AnswerOf.{login_of};
ghost use Rattle.types.specs.AnswerOf.{answer_with};

use types::{Cursor, Read, Span, WireError};

#[derive(Clone, Copy)]
pub(crate) struct Login {
    pub user: Span,
    pub password: Span,
}

// The place of the first NUL. Inlined it would take registers from the loop over fields: 31 commands took 12,917 instructions in place
// of 12,648.
#[inline(never)]
fn first_nul(text: &[u8]) -> Option<usize>
    ensures { result ≡ position_from (λ x. x == 0) 0 text.now }
{
    text.iter().position(|octet| *octet == 0)
}

// First the long string, then NotWritten at its length field, then UTF-8: of the user, of the password.
pub(crate) fn read_login(s: &[u8], at: Cursor) -> Read<Login>
    ensures { answer_with login_of result ≡ arg_at errata login s.now at.at 0 }
{
    let (v, next) = at.long_str(s)?;
    let Some(text) = s[v.start..next.at].strip_prefix(&[0]) else {
        return Err(WireError::NotWritten(at.at));
    };
    let Some(len) = first_nul(text) else {
        return Err(WireError::NotWritten(at.at));
    };
    let user = v.start + 1;
    login_text(s, user, user + len, next)
}

// The user up to the NUL, the password behind it.
fn login_text(s: &[u8], user: usize, nul: usize, next: Cursor) -> Read<Login>
    requires { (user ≤ nul) × (suc nul ≤ next.at) × (next.at ≤ length s.now) }
    ensures { answer_with login_of result ≡ login_utf8 s.now (record { user = record { start = user; len = nul - user }; password = record { start = suc nul; len = next.at - suc nul } }) next.at }
{
    let password = nul + 1;
    utf8::scan_utf8(&s[user..nul])?;
    utf8::scan_utf8(&s[password..next.at])?;
    Ok((
        Login {
            user: Span {
                start: user,
                len: nul - user,
            },
            password: Span {
                start: password,
                len: next.at - password,
            },
        },
        next,
    ))
}
