//! What a session is served under.

ghost use Rattle.std.specs.Prelude.{◌≡◌, ◌↔◌, ◌<◌, ◌≤◌, length, IfOk, Err};
ghost use Rattle.dp_answer.specs.declared.app.AppRefused.TheVariants as refused;

use default_key::Options;
use dp_encryptor::HeaderTable;
use std::alloc::{AllocError, Global};
use std::marker::Model;
use thiserror::Error;

/// The most bytes of an application's name.
pub const MAX_APP: usize = 256;

const _: () = prove!(MAX_APP == 256);

/// Why a text is no application's name.
#[derive(Clone, Copy, Debug, PartialEq, Eq, Error)]
pub enum AppRefused {
    /// It has more than `MAX_APP` bytes.
    #[error("the name of an application is too long")]
    TooLong,
    /// No memory was found for it.
    #[error("no memory")]
    Memory,
}

impl From<AllocError> for AppRefused {
    ghost use Rattle.std.specs.Prelude.{◌≡◌};
    ghost use Rattle.dp_answer.specs.declared.app.AppRefused.TheVariants.{Memory};

    ghost from_gives = { λ _ refused. refused ≡ Memory };

    fn from(_: AllocError) -> AppRefused {
        AppRefused::Memory
    }
}

/// The name of an application, of at most `MAX_APP` bytes. One that isn't empty is the first purpose of
/// every chain, so what one application protects another doesn't open.
#[derive(Debug, Drop)]
pub struct AppName {
    text: String,
}

// Clauses see the bytes of the name.
impl Model for AppName {
    ghost use Rattle.std.specs.Prelude.{List, ℕ, ◌≤◌, length, string_bytes};

    ghost Value = { List ℕ };

    ghost view = { λ a. string_bytes a.text };

    ghost invariant = { λ a. length (string_bytes a.text) ≤ 256 };
}

impl AppName {
    /// A copy of the text.
    pub fn new(alloc: Global, text: &str) -> Result<AppName, AppRefused>
        ensures value { IfOk result (λ app. app ≡ text.now) }
        ensures too_long { (result ≡ Err refused.TooLong) ↔ (MAX_APP < length text.now) }
    {
        if text.len() > MAX_APP {
            return Err(AppRefused::TooLong);
        }
        Ok(AppName {
            text: String::from_str(alloc, text)?,
        })
    }

    /// The name as a text.
    pub fn as_str(&self) -> &str
        ensures value { result.now ≡ self.now }
        ensures short { length result.now ≤ MAX_APP }
    {
        self.text.as_str()
    }
}

/// What a node and its sessions are set up with.
#[derive(Debug, Drop)]
pub struct Setup {
    /// When the node makes keys, and which.
    pub options: Options,
    pub app: AppName,
}

/// What every request of a session is answered under: the application's name and the context headers.
#[derive(Clone, Copy)]
pub struct Setting<'a> {
    pub app: &'a AppName,
    pub headers: &'a HeaderTable,
}
