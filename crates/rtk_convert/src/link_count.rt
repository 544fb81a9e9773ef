//! How many links a conversion reads.

ghost use Rattle.std.specs.Prelude.{◌≡◌, IfOk, IfErr};
ghost use Rattle.rtk_convert.specs.Converter.{IsLinkCount};

use crate::fault::ConvertFault;
use rtk_setup::MOST_LINKS;
use std::marker::Model;

/// How many links a conversion reads, 1 to 16.
#[derive(Clone, Copy, Debug, PartialEq, Eq)]
pub struct LinkCount {
    links: usize,
}

impl Model for LinkCount {
    ghost use Rattle.std.specs.Prelude.{ℕ};
    ghost use Rattle.rtk_convert.specs.Converter.{IsLinkCount};

    ghost Value = { ℕ };

    ghost view = { λ c. c.links };

    ghost invariant = { λ c. IsLinkCount c.links };

    ghost inverse = { λ n. record { links = n } };
}

impl LinkCount {
    /// Makes the number of links of a conversion if there can be so many, else answers
    /// `ConvertFault::Setup`.
    pub fn new(links: usize) -> Result<LinkCount, ConvertFault>
        ensures links { IfOk result (λ count. count ≡ links) }
        ensures good { IfOk result IsLinkCount }
        ensures fault { IfErr result (λ fault. (fault ≡ ConvertFault.Setup) × ¬ (IsLinkCount links)) }
    {
        if links < 1 || links > MOST_LINKS {
            return Err(ConvertFault::Setup);
        }
        Ok(LinkCount { links })
    }

    /// Returns how many links there are.
    pub fn links(self) -> usize
        ensures value { result ≡ self }
        ensures good { IsLinkCount result }
    {
        self.links
    }
}
