ghost use Rattle.std.specs.Prelude.{◌≡◌, option_map};
ghost use Rattle.serve_words.specs.Options.{no_options, put, texts_of, value_at, with};

/// An option that has a value.
#[derive(Clone, Copy)]
pub(crate) enum Name {
    Folder,
    Listen,
    Page,
    Key,
    Hold,
}

/// The options that were given so far.
#[derive(Clone, Copy)]
pub(crate) struct Given<'a> {
    pub(crate) folder: Option<&'a str>,
    pub(crate) listen: Option<&'a str>,
    pub(crate) page: Option<&'a str>,
    pub(crate) key: Option<&'a str>,
    pub(crate) hold: Option<&'a str>,
    pub(crate) parent: bool,
}

impl<'a> Given<'a> {
    /// No option.
    pub(crate) fn new() -> Given<'a>
        ensures { texts_of result ≡ no_options }
    {
        Given {
            folder: None,
            listen: None,
            page: None,
            key: None,
            hold: None,
            parent: false,
        }
    }

    fn value(&self, name: Name) -> Option<&'a str>
        ensures { option_map (λ s. s.now) result ≡ value_at name (texts_of self.now) }
    {
        match name {
            Name::Folder => self.folder,
            Name::Listen => self.listen,
            Name::Page => self.page,
            Name::Key => self.key,
            Name::Hold => self.hold,
        }
    }

    fn with(self, name: Name, value: &'a str) -> Given<'a>
        ensures { texts_of result ≡ with name value.now (texts_of self.entry) }
    {
        let mut given = self;
        match name {
            Name::Folder => given.folder = Some(value),
            Name::Listen => given.listen = Some(value),
            Name::Page => given.page = Some(value),
            Name::Key => given.key = Some(value),
            Name::Hold => given.hold = Some(value),
        }
        given
    }

    /// The options with this value, if the option had none before.
    pub(crate) fn put(self, name: Name, value: &'a str) -> Option<Given<'a>>
        ensures { option_map texts_of result ≡ put name value.now (texts_of self.entry) }
    {
        if self.value(name).is_some() {
            None
        } else {
            Some(self.with(name, value))
        }
    }
}
