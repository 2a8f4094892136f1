//! The captured configuration of a router, and its text.

use anyhow::Result;
use captured_config::{CapturedConfig, SeenAreas};
use lsa_codec::Checked;
use std::alloc::Global;
use std::fmt::Write;
use std::hash::RandomState;

/// The areas and the configuration so far, and the text.
pub struct Trial {
    areas: SeenAreas,
    config: CapturedConfig,
    text: String,
}

// proof: a value is dropped by one call, not part by part at each exit of a function.
impl Drop for Trial {
    fn drop(self) {
        let Trial {
            areas: _areas,
            config: _config,
            text: _text,
        } = self;
    }
}

impl Trial {
    pub fn new(alloc: Global, hashing: RandomState, router: u32) -> Trial {
        Trial {
            areas: SeenAreas::new(alloc, hashing),
            config: CapturedConfig::new(alloc, router),
            text: String::new(alloc),
        }
    }

    pub fn see(&mut self, area: u32) -> Result<()> {
        self.areas.note(area)?;
        Ok(())
    }

    pub fn note(&mut self, alloc: Global, area: u32, lsa: &Checked) -> Result<()> {
        self.config.note(alloc, area, lsa)?;
        Ok(())
    }

    /// Appends the preamble of the recording, and the unknown parts of the configuration.
    ///
    /// # Errors
    ///
    /// Returns an error if there is no preamble, or if memory runs out.
    pub fn put(&mut self, alloc: Global) -> Result<()> {
        self.config
            .put_preamble(alloc, &self.areas, &mut self.text)?;
        self.config.put_unknown(&self.areas, &mut self.text)?;
        Ok(())
    }

    /// Appends the reason why there is no preamble of the recording.
    pub fn put_fault(&mut self, alloc: Global) -> Result<()> {
        if let Err(fault) = self.config.put_preamble(alloc, &self.areas, &mut self.text) {
            write!(self.text, "{} areas: {fault}", self.areas.count())?;
        }
        Ok(())
    }

    pub fn text(&self) -> &str {
        &self.text
    }
}
