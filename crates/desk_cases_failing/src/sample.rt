//! The sample site.

use desk_exports::Profile;
use desk_policy::{ExportsText, PerSite, PerTable, Site};
use desk_text::Text;
use std::alloc::{AllocError, Global};
use std::collections::BTreeMap;

const CUSTODIANS: &str = "site ba7816bf8f01cfea414140de5dae2223b00361a396177a9cb410ff61f20015ad\n\
    ulf 2cf24dba5fb0a30e26e83b2ac5b9e29e1b161e5c1fa7425e73043362938b9824\n";

pub const FILESYSTEMS: &str =
    "/usr site\n/u ulf\n/a ulf\n/u2 ulf\n/cdrom site\n/private site\n/secret site\n";

/// The same, with two keepers of a guarded exports file.
pub const GUARDED: &str =
    "/usr site\n/u !guarded ulf site\n/a ulf\n/u2 ulf\n/cdrom site\n/private site\n/secret site\n";

/// The same keepers of a file that is guarded no longer.
pub const UNGUARDED: &str =
    "/usr site\n/u ulf site\n/a ulf\n/u2 ulf\n/cdrom site\n/private site\n/secret site\n";

const HOSTS: &str =
    "131.104.48.17 grumpy.example grumpy\n131.104.48.20 sneezy\n131.104.48.21 doc\n";

const NETWORKS: &str = "cis-net 131.104.48\ncis-mask 255.255.255\n";

const PASSWD: &str = "root:*:0:0:Root:/root:/bin/sh\ndaemon:*:1:1:Owner:/root:/usr/sbin/nologin\n\
    bin:*:3:7:Binaries:/:/usr/sbin/nologin\nnobody:*:65534:65534:Nobody:/nonexistent:/usr/sbin/nologin\n";

const GROUP: &str =
    "wheel:*:0:root\ndaemon:*:1:\noperator:*:5:root,daemon\nbin:*:7:\nnobody:*:65534:\n";

const NETGROUP: &str = "friends (sneezy,,) (doc,-,) pals\npals (,root,) friends\n";

/// The exports files, by mount point.
pub const EXPORTS: [(&str, &str); 7] = [
    (
        "/a",
        "/a -network 192.168.0/24\n/a -network 3ffe:1ce1:1:fe80::/64\n\
        V4: / -sec=krb5:krb5i:krb5p -network 131.104.48 -mask 255.255.255.0\n",
    ),
    (
        "/cdrom",
        "/cdrom -alldirs,quiet,ro -network 192.168.33.0 -mask 255.255.255.0\n",
    ),
    ("/private", "/private -sec=krb5i\n"),
    ("/secret", "/secret -sec=krb5p\n"),
    (
        "/u",
        "/u -maproot=bin: -network 131.104.48 -mask 255.255.255.0\n",
    ),
    (
        "/u2",
        "/u2 -maproot=root friends\n/u2 -alldirs -network cis-net -mask cis-mask\n",
    ),
    (
        "/usr",
        "/usr /usr/local -maproot=0:10 friends\n/usr -maproot=daemon grumpy.example 131.104.48.16\n\
        /usr -ro -mapall=nobody\n",
    ),
];

/// Six of the seven files, by name: all but that of the file systems.
pub const TABLES: [(&str, &str); 6] = [
    ("custodians", CUSTODIANS),
    ("hosts", HOSTS),
    ("networks", NETWORKS),
    ("passwd", PASSWD),
    ("group", GROUP),
    ("netgroup", NETGROUP),
];

/// Returns the texts of the site, with this text of the file systems.
pub fn site(alloc: Global, filesystems: &str) -> Result<Site, AllocError> {
    let tables = PerTable {
        hosts: HOSTS,
        networks: NETWORKS,
        passwd: PASSWD,
        group: GROUP,
        netgroup: NETGROUP,
    };
    let files = PerSite {
        custodians: CUSTODIANS,
        filesystems,
        tables,
    };
    Ok(Site {
        files: PerSite::copy(alloc, files)?,
        exports: exports(alloc)?,
    })
}

/// Returns the exports texts of the site, by mount point.
fn exports(alloc: Global) -> Result<BTreeMap<String, ExportsText>, AllocError> {
    let mut exports = BTreeMap::new(alloc);
    for (mount, text) in EXPORTS {
        exports.insert(String::from_str(alloc, mount)?, exports_text(alloc, text)?)?;
    }
    Ok(exports)
}

fn exports_text(alloc: Global, text: &str) -> Result<ExportsText, AllocError> {
    Ok(ExportsText {
        profile: Profile::Two,
        body: Text::copy(alloc, text)?,
    })
}

/// Returns the names of the files that the site has.
pub fn names(alloc: Global) -> Result<Vec<String>, AllocError> {
    let mut names = Vec::new(alloc);
    names.push(String::from_str(alloc, "filesystems")?)?;
    for (name, _) in TABLES {
        names.push(String::from_str(alloc, name)?)?;
    }
    for (mount, _) in EXPORTS {
        names.push(format!(in alloc; "exports:{mount}")?)?;
    }
    Ok(names)
}
