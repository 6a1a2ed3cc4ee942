/// What the words ask for. Each text is a part of the words.
#[derive(Clone, Copy)]
pub enum ServeForm<'a> {
    /// `node N FILE [OPTION]..`: runs node N of FILE.
    Node {
        node: u16,
        file: &'a str,
        options: ServeOptions<'a>,
        parent: Option<Parent>,
    },
    /// `arbiter A FILE [OPTION]..`: runs arbitrator A of FILE.
    Arbiter {
        arbiter: u8,
        file: &'a str,
        options: ServeOptions<'a>,
    },
    /// `check FILE`: reads FILE as a start does.
    Check {
        file: &'a str,
    },
    /// `ask FOLDER LINE..`: sends the lines to the process that runs the actor of the folder.
    Ask {
        folder: &'a str,
        lines: &'a [String],
    },
    /// `again FILE FOLDER..`: says by which line 2 of FILE the ring of these folders begins again.
    Again {
        file: &'a str,
        folders: &'a [String],
    },
    /// `--help`: says which words there are.
    Help,
    /// `--version`: says which version this is.
    Version,
}

/// The options that nodes and arbitrators have. None is an option that was not given.
#[derive(Clone, Copy)]
pub struct ServeOptions<'a> {
    /// `--folder D`: the folder of the actor.
    pub folder: Option<&'a str>,
    /// `--listen ADDRESS`: where the UDP socket is bound.
    pub listen: Option<&'a str>,
    /// `--page ADDRESS`: where the page is served.
    pub page: Option<&'a str>,
    /// `--key FILE`: the key of sealed frames.
    pub key: Option<&'a str>,
}

/// `--parent`: a parent speaks on standard input.
#[derive(Clone, Copy)]
pub struct Parent {
    /// `--hold TICKS`: for how many ticks frames are held at most, 1 to 1,000,000,000. The configuration may allow fewer.
    pub hold: Option<u64>,
}
