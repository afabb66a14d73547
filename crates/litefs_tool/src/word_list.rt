ghost use Rattle.std.specs.Prelude.{◌≡◌, IfOk};

use lf_base::{NoMemory, Text};
use std::alloc::Global;
use std::marker::Model;

/// Words that a contract sees as a list, each as its bytes.
#[derive(Debug, Drop)]
pub struct WordList {
    inside: Vec<Text>,
}

impl Model for WordList {
    ghost use Rattle.std.specs.Prelude.{ℕ, List};

    ghost Value = { List (List ℕ) };

    ghost view = { λ w. w.inside.items };
}

impl WordList {
    /// The same words once more.
    pub fn of(alloc: Global, words: &[Text]) -> Result<WordList, NoMemory>
        ensures { IfOk result (λ list. list ≡ words.now) }
    {
        let mut inside = Vec::new(alloc);
        for word in words {
            inside.push(word.copy()?)?;
        }
        Ok(WordList { inside })
    }

    pub fn as_slice(&self) -> &[Text]
        ensures { result.now ≡ self.now }
    {
        self.inside.as_slice()
    }
}
