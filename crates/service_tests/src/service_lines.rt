//! Lines of the service object: one that says everything, and one for each refusal.
use crate::small_config::small_config;
use service_file::{
    Again, Declared, LineChoice, ServiceError, ServiceField, ServiceSettings, read_service,
};
use std::alloc::Global;
use std::process::Abort;

/// What the line says for the small configuration.
fn read(rt: &impl Abort, alloc: Global, line: &str) -> Result<ServiceSettings, ServiceError> {
    read_service(alloc, &small_config(rt, alloc), line.as_bytes())
}

#[test]
fn a_line_says_everything(rt: HostRuntime) {
    let line =
        "{\"join\":[12,7],\"partitions\":[{\"partition\":65535,\"replicas\":3},{\"partition\":0,\
\"replicas\":7}],\"heal_after\":900,\"lines\":\"all\",\"again\":{\"node\":12,\"instance\":4294967295}}";
    let settings = read(&rt, rt.alloc(), line).expect(&rt, "settings");
    assert_eq!(rt; settings.join.as_slice(), [12, 7].as_slice());
    let declared = [
        Declared {
            partition: 65535,
            replicas: 3,
        },
        Declared {
            partition: 0,
            replicas: 7,
        },
    ];
    assert_eq!(rt; settings.partitions.as_slice(), declared.as_slice());
    assert_eq!(rt; settings.heal_after, 900);
    assert_eq!(rt; settings.lines, LineChoice::AllLines);
    let again = Again {
        node: 12,
        instance: 4_294_967_295,
    };
    assert_eq!(rt; settings.again, Some(again));
}

#[test]
fn defaults_are_of_the_configuration(rt: HostRuntime) {
    for line in [
        "",
        "{}",
        "{\"lines\":\"some\",\"partitions\":[],\"join\":[]}",
    ] {
        let settings = read(&rt, rt.alloc(), line).expect(&rt, "settings");
        assert!(rt; settings.join.as_slice().is_empty());
        assert!(rt; settings.partitions.as_slice().is_empty());
        assert_eq!(rt; settings.heal_after, 3000);
        assert_eq!(rt; settings.lines, LineChoice::SomeLines);
        assert_eq!(rt; settings.again, None);
    }
}

/// A line, and the words behind `fault service` with which it is refused.
const REFUSED: [(&str, &str); 28] = [
    ("{", "json"),
    (" ", "json"),
    ("[]", "json"),
    ("{\"heal_afte\":1}", "unknown"),
    ("{\"node\":7}", "unknown"),
    (
        "{\"again\":{\"node\":7,\"instance\":2,\"until\":3}}",
        "unknown",
    ),
    (
        "{\"partitions\":[{\"partition\":7,\"replica\":3}]}",
        "unknown",
    ),
    ("{\"join\":7,\"lines\":\"none\"}", "join"),
    ("{\"join\":[8]}", "join"),
    ("{\"join\":[7,7]}", "join"),
    ("{\"partitions\":{}}", "partitions"),
    ("{\"partitions\":[7]}", "partitions"),
    (
        "{\"partitions\":[{\"partition\":7},{\"partition\":8},{\"partition\":7}]}",
        "partitions",
    ),
    ("{\"partitions\":[{\"replicas\":3}]}", "partition"),
    (
        "{\"partitions\":[{\"partition\":1,\"replicas\":0},{\"partition\":65536,\"replicas\":3}]}",
        "partition",
    ),
    ("{\"partitions\":[{\"partition\":1}]}", "replicas"),
    (
        "{\"partitions\":[{\"partition\":1,\"replicas\":8}]}",
        "replicas",
    ),
    (
        "{\"partitions\":[{\"partition\":1,\"replicas\":0}]}",
        "replicas",
    ),
    ("{\"heal_after\":0}", "heal_after"),
    ("{\"heal_after\":1000000001}", "heal_after"),
    ("{\"heal_after\":1.0}", "heal_after"),
    ("{\"lines\":\"All\"}", "lines"),
    ("{\"again\":7}", "again"),
    ("{\"again\":{\"node\":8}}", "again"),
    ("{\"again\":{\"node\":8,\"instance\":1}}", "node"),
    ("{\"again\":{\"node\":7,\"instance\":1}}", "instance"),
    (
        "{\"again\":{\"node\":7,\"instance\":4294967296}}",
        "instance",
    ),
    (
        "{\"again\":{\"node\":7,\"instance\":2},\"again\":null}",
        "again",
    ),
];

#[test]
fn each_line_is_refused_by_its_first_bad_check(rt: HostRuntime) {
    for (line, words) in REFUSED {
        match read(&rt, rt.alloc(), line) {
            Err(ServiceError::Bad(field)) => assert_eq!(rt; field.words(), words, "{line}"),
            _ => assert!(rt; false, "{line}"),
        }
    }
}

/// The object `partitions` of so many partitions.
fn many_partitions(rt: &impl Abort, alloc: Global, count: u16) -> String {
    let mut line = String::new(alloc);
    line.push_str("{\"partitions\":[").expect(rt, "memory");
    for partition in 0..count {
        let comma = if partition == 0 { "" } else { "," };
        let entry = format!(in alloc; "{comma}{{\"partition\":{partition},\"replicas\":1}}");
        line.push_str(entry.expect(rt, "memory").as_str())
            .expect(rt, "memory");
    }
    line.push_str("]}").expect(rt, "memory");
    line
}

#[test]
fn a_line_declares_256_partitions_and_no_more(rt: HostRuntime) {
    let line = many_partitions(&rt, rt.alloc(), 256);
    let settings = read(&rt, rt.alloc(), line.as_str()).expect(&rt, "settings");
    assert_eq!(rt; settings.partitions.as_slice().len(), 256);
    let line = many_partitions(&rt, rt.alloc(), 257);
    let refused = read(&rt, rt.alloc(), line.as_str()).err();
    assert_eq!(rt; refused, Some(ServiceError::Bad(ServiceField::Partitions)));
}
