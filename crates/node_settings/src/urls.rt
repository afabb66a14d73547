use crate::Url;
use lf_base::NoMemory;
use std::alloc::Global;
use std::marker::Model;

/// Where nodes are found. They are seen as a list of URLs, each as its bytes.
#[derive(Debug, Drop)]
pub struct Urls {
    inside: Vec<Url>,
}

impl Model for Urls {
    ghost use Rattle.std.specs.Prelude.{ℕ, List};

    ghost Value = { List (List ℕ) };

    ghost view = { λ u. u.inside.items };
}

impl Urls {
    ghost use Rattle.std.specs.Prelude.{◌≡◌, [], ◌∷◌, ◌++◌, OnOk};

    pub(crate) fn none(alloc: Global) -> Urls
        ensures { result ≡ [] }
    {
        Urls {
            inside: Vec::new(alloc),
        }
    }

    pub(crate) fn push(&mut self, url: Url) -> Result<(), NoMemory>
        ensures { OnOk result (self.new ≡ self.old ++ url ∷ []) }
    {
        self.inside.push(url)?;
        Ok(())
    }

    pub fn as_slice(&self) -> &[Url]
        ensures { result.now ≡ self.now }
    {
        self.inside.as_slice()
    }
}
