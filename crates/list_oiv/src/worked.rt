//! Worked examples of listings, computed when the crate is checked.
ghost use Rattle.std.specs.Prelude.{◌≡◌, [], ◌∷◌, ◌++◌, codes, Some, None};
ghost use Rattle.ns_tree.specs.Space.{empty_space, root_pair};
ghost use Rattle.list_oiv.specs.Delimited.{delimited};
ghost use Rattle.list_oiv.specs.Directory.{path_listing};
ghost use Rattle.list_oiv.specs.Sizes.{class_of, sizes};
ghost use Rattle.list_oiv.specs.Entries.{rows_json};
ghost use Rattle.list_oiv.specs.Examples.{known_rows};

/// The root as it is at the beginning.
pub fn known_images_have_listings()
    ensures delimited { delimited empty_space.pairs
        ≡ codes "Path\tReplication\tModificationTime\tAccessTime\tPreferredBlockSize\tBlocksCount\tFileSize\tNSQUOTA\tDSQUOTA\tPermission\tUserName\tGroupName\n/\t0\t0\t0\t0\t0\t0\t-1\t-1\tdrwxr-xr-x\thdfs\tsupergroup\n" }
    ensures sizes { sizes empty_space.pairs
        ≡ codes "0 0\n1024 0\n1048576 0\n1073741824 0\n1099511627776 0\nmore 0\nfiles 0\ndirectories 1\nblocks 0\nbytes 0\n" }
    ensures json { rows_json empty_space.pairs
        ≡ codes "[{\"AccessTime\":0,\"BlocksCount\":0,\"DSQUOTA\":-1,\"FileSize\":0,\"GroupName\":\"supergroup\",\"ModificationTime\":0,\"NSQUOTA\":-1,\"Path\":\"/\",\"Permission\":\"drwxr-xr-x\",\"PreferredBlockSize\":0,\"Replication\":0,\"UserName\":\"hdfs\"}]\n" }
{}

/// The root, a file of 1,048,600 bytes in two blocks, and a directory.
pub fn known_rows_have_listings()
    ensures { sizes known_rows
        ≡ codes "0 0\n1024 0\n1048576 0\n1073741824 1\n1099511627776 0\nmore 0\nfiles 1\ndirectories 2\nblocks 2\nbytes 1048600\n" }
{}

/// A size at its limit is in the class of that limit.
pub fn sizes_have_classes()
    ensures none { class_of 0 ≡ 0 }
    ensures one { class_of 1 ≡ 1 }
    ensures kilo { class_of 1024 ≡ 1 }
    ensures above_kilo { class_of 1025 ≡ 2 }
    ensures mega { class_of 1048576 ≡ 2 }
    ensures giga { class_of 1073741824 ≡ 3 }
    ensures tera { class_of 1099511627776 ≡ 4 }
    ensures more { class_of 1099511627777 ≡ 5 }
{}

/// The root of a file and a directory; the file; a directory without entries; and what isn't there.
pub fn known_directories_have_listings()
    ensures root { path_listing (codes "/") known_rows
        ≡ Some (codes "Found 2 items\n-rw-r--r-- 3 u g 1048600 10 /f\ndrwxrwxrwt - u g 0 7 /t\n") }
    ensures file { path_listing (codes "/f") known_rows ≡ Some (codes "-rw-r--r-- 3 u g 1048600 10 /f\n") }
    ensures empty { path_listing (codes "/t") known_rows ≡ Some [] }
    ensures absent { path_listing (codes "/t/") known_rows ≡ None }
{}
