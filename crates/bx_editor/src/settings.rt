//! How a session works, as it is told before the first key.
ghost use Rattle.std.specs.Prelude.{◌≡◌, option_map, string_bytes};
ghost use Rattle.bx_editor.specs.Settings.{is_home, plain, with_settings};

use crate::editor::Editor;
use bx_ucd::BidiData;
use std::marker::Model;

/// How a session works.
#[derive(Drop)]
pub struct Settings {
    /// Nothing changes the text.
    pub read_only: bool,
    /// A new line is indented as the one before.
    pub auto_indent: bool,
    /// A tab that is typed becomes spaces up to the next multiple of this number of units; 0: it is a tab.
    pub tab_width: u8,
    /// The file's name; an empty one says that the text has none yet.
    pub name: Option<String>,
}

impl Model for Settings {
    ghost use Rattle.std.specs.Prelude.{option_map, string_bytes};
    ghost use Rattle.bx_editor.specs.Settings.{SettingsState};

    ghost Value = { SettingsState };

    ghost view = { λ s. record {
      read_only = s.read_only;
      auto_indent = s.auto_indent;
      tab_width = s.tab_width;
      name = option_map string_bytes s.name;
    } };
}

impl Settings {
    /// The settings of a session for which none are told.
    pub fn plain() -> Settings
        ensures { result ≡ plain }
    {
        Settings {
            read_only: false,
            auto_indent: false,
            tab_width: 0,
            name: None,
        }
    }
}

/// Whether saves go to the file that was opened: a text without a name has none.
fn is_home(name: &Option<String>) -> bool
    ensures { result ≡ is_home (option_map string_bytes name.now) }
{
    match name {
        Some(name) => !name.is_empty(),
        None => true,
    }
}

impl<D: BidiData + Drop> Editor<D> {
    /// From now on the session works by these settings. Allocates nothing.
    pub fn set(&mut self, settings: Settings)
        ensures { self.new ≡ record self.old { editor = with_settings self.old.editor settings } }
    {
        self.read_only = settings.read_only;
        self.auto_indent = settings.auto_indent;
        self.tab_width = settings.tab_width;
        self.home = is_home(&settings.name);
        self.name = settings.name;
        self.drawn_name = None;
    }
}
